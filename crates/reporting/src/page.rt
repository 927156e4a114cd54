// The report as a page: one file that names nothing outside itself, for a screen, light or dark, and for paper.
use crate::asked::{Asked, adds_up, size};
use crate::held::{escaped, grouped, text, told};

// Colours: on a screen that is dark, and on paper, others.
fn style(rt: &HostRuntime, buf: &mut [u8; 65536], at: usize) -> usize {
    text(
        rt,
        b"<style>\n:root{--paper:#faf8f3;--ink:#1c2420;--soft:#5b6760;--line:#dcd7ca;--card:#fff;\
        --carried:#17594a;--filled:#f1c27d;--bad:#a3262a}\n\
        @media screen and (prefers-color-scheme:dark){:root{--paper:#141816;--ink:#e9ece8;--soft:#a0aca5;\
        --line:#343c37;--card:#1d2320;--carried:#6fd3b0;--filled:#7a5320;--bad:#ff9a92}}\n\
        @media print{:root{--paper:#fff}body{font-size:10pt}main{margin:0;max-width:none}li{break-inside:avoid}}\n\
        *{box-sizing:border-box}\nbody{margin:0;background:var(--paper);color:var(--ink);font:16px/1.5 system-ui,sans-serif}\n\
        main{max-width:60rem;margin:2.5rem auto;padding:0 1.25rem}\nh1{font-size:1.9rem;line-height:1.2;margin:0 0 .4rem}\n\
        h2{font-size:1.15rem;margin:2.25rem 0 .6rem}\np{margin:.4rem 0}\ncode{font:.92em ui-monospace,monospace;overflow-wrap:anywhere}\n\
        .soft,figcaption,dt,small,.axis{color:var(--soft)}\n.sums{display:grid;grid-template-columns:repeat(auto-fit,minmax(11rem,1fr));\
        gap:.9rem;margin:1.5rem 0 .9rem;padding:0;list-style:none}\n.sums li{background:var(--card);border:1px solid var(--line);\
        border-radius:.5rem;padding:.8rem 1rem}\n.sums b{display:block;font-size:1.7rem;line-height:1.25;font-variant-numeric:tabular-nums}\n\
        .sums .f{border-left:.4rem solid var(--filled)}.sums .c{border-left:.4rem solid var(--carried)}\n\
        .check{border:1px solid var(--carried);border-radius:.5rem;padding:.6rem 1rem;font-variant-numeric:tabular-nums}\n\
        .check.no{border-color:var(--bad);color:var(--bad)}\ndl{display:grid;grid-template-columns:max-content 1fr;gap:.25rem 1.25rem;margin:1.25rem 0}\n\
        dd{margin:0;overflow-wrap:anywhere}\nfigure{margin:0}\nsvg,.key,.sums li{print-color-adjust:exact;-webkit-print-color-adjust:exact}\n\
        svg{display:block;width:100%;height:5.5rem;border:1px solid var(--line);border-radius:.25rem}\n\
        .ground{fill:var(--filled)}rect{fill:var(--carried)}.s1{fill-opacity:.24}.s2{fill-opacity:.32}.s3{fill-opacity:.4}\n\
        .s4{fill-opacity:.48}.s5{fill-opacity:.56}.s6{fill-opacity:.64}.s7{fill-opacity:.72}.s8{fill-opacity:.78}.s9{fill-opacity:.84}\n\
        .axis{display:flex;justify-content:space-between;margin:.2rem 0 .6rem;font-size:.85rem;font-variant-numeric:tabular-nums}\n\
        figcaption{font-size:.9rem}.key{display:inline-block;width:1.1em;height:1.1em;border-radius:.2em;vertical-align:-.2em;\
        margin-right:.4em;border:1px solid var(--line)}.key.none{background:var(--filled);margin-left:1em}.key.all{background:var(--carried)}\n\
        .logs{columns:auto 10.5rem;column-gap:1.5rem;margin:.8rem 0;padding:0;list-style:none;font-variant-numeric:tabular-nums}\n\
        .logs small{margin-left:.3em}\n</style>\n",
        buf,
        at,
    )
}

// The file's name; a dash is standard input.
fn name(rt: &HostRuntime, file: &[u8], buf: &mut [u8; 65536], at: usize) -> usize {
    if check::same(file, b"-") {
        return text(rt, b"standard input", buf, at);
    }
    escaped(rt, file, buf, at)
}

fn opening(rt: &HostRuntime, file: &[u8], buf: &mut [u8; 65536], at: usize) -> usize {
    let a = text(
        rt,
        b"<!DOCTYPE html>\n<html lang=\"en\">\n<head>\n<meta charset=\"utf-8\">\n\
        <meta name=\"viewport\" content=\"width=device-width, initial-scale=1\">\n\
        <meta name=\"color-scheme\" content=\"light dark\">\n<title>Filled logs: ",
        buf,
        at,
    );
    let b = name(rt, file, buf, a);
    let c = text(rt, b"</title>\n", buf, b);
    let d = style(rt, buf, c);
    text(
        rt,
        b"</head>\n<body>\n<main>\n<h1>The filled logs, and no others</h1>\n\
        <p class=\"soft\">A log whose record does not carry the field is filled. This report has every filled log of a window.</p>\n",
        buf,
        d,
    )
}

// One of the numbers, on a card of its own.
fn card(
    rt: &HostRuntime,
    open: &[u8],
    n: u64,
    words: &[u8],
    buf: &mut [u8; 65536],
    at: usize,
) -> usize {
    let a = told(rt, open, n, buf, at);
    let b = text(rt, b"</b> ", buf, a);
    let c = text(rt, words, buf, b);
    text(rt, b"</li>\n", buf, c)
}

fn sums(
    rt: &HostRuntime,
    carried: u64,
    filled: u64,
    many: u64,
    buf: &mut [u8; 65536],
    at: usize,
) -> usize {
    let a = text(rt, b"<ul class=\"sums\">\n", buf, at);
    let b = card(rt, b"<li class=\"f\"><b>", filled, b"filled", buf, a);
    let c = card(
        rt,
        b"<li class=\"c\"><b>",
        carried,
        b"carry the field",
        buf,
        b,
    );
    let d = card(rt, b"<li><b>", many, b"records in the window", buf, c);
    text(rt, b"</ul>\n", buf, d)
}

// Whether the numbers add up, with the numbers.
fn verdict(
    rt: &HostRuntime,
    carried: u64,
    filled: u64,
    many: u64,
    buf: &mut [u8; 65536],
    at: usize,
) -> usize {
    let a = if adds_up(carried, filled, many) {
        text(rt, b"<p class=\"check\">&#10003; It adds up: ", buf, at)
    } else {
        text(
            rt,
            b"<p class=\"check no\">&#10007; It does not add up: ",
            buf,
            at,
        )
    };
    let b = grouped(rt, filled, buf, a);
    let c = told(rt, b" filled + ", carried, buf, b);
    let d = told(rt, b" carried, of ", many, buf, c);
    text(rt, b" records.</p>\n", buf, d)
}

// The window in words: its first and its last record.
fn window(rt: &HostRuntime, start: u64, end: u64, buf: &mut [u8; 65536], at: usize) -> usize {
    if end <= start {
        return text(rt, b"no record", buf, at);
    }
    let a = told(rt, b"records ", start, buf, at);
    told(rt, b" to ", end - 1, buf, a)
}

fn profile(rt: &HostRuntime, number: u8, buf: &mut [u8; 65536], at: usize) -> usize {
    if number == 1 {
        return text(
            rt,
            b"1: the column lists the records that carry the field",
            buf,
            at,
        );
    }
    text(
        rt,
        b"2: the column lists the records that leave the field empty",
        buf,
        at,
    )
}

// What was asked.
fn facts(rt: &HostRuntime, file: &[u8], asked: Asked, buf: &mut [u8; 65536], at: usize) -> usize {
    let a = text(rt, b"<dl>\n<dt>File</dt><dd><code>", buf, at);
    let b = name(rt, file, buf, a);
    let c = told(
        rt,
        b"</code></dd>\n<dt>Records in all</dt><dd>",
        asked.count,
        buf,
        b,
    );
    let d = text(rt, b"</dd>\n<dt>Window</dt><dd>", buf, c);
    let e = window(rt, asked.start, asked.end, buf, d);
    let f = text(rt, b"</dd>\n<dt>Profile</dt><dd>", buf, e);
    let g = profile(rt, asked.profile, buf, f);
    text(rt, b"</dd>\n</dl>\n", buf, g)
}

// All that stands before the picture.
pub fn front(
    rt: &HostRuntime,
    asked: Asked,
    file: &[u8],
    carried: u64,
    filled: u64,
    buf: &mut [u8; 65536],
    at: usize,
) -> usize {
    let many = size(asked.start, asked.end);
    let a = opening(rt, file, buf, at);
    let b = facts(rt, file, asked, buf, a);
    let c = sums(rt, carried, filled, many, buf, b);
    let d = verdict(rt, carried, filled, many, buf, c);
    text(rt, b"<h2>The window</h2>\n", buf, d)
}

// What stands between the picture and the list of so many logs.
pub fn middle(rt: &HostRuntime, filled: u64, buf: &mut [u8; 65536], at: usize) -> usize {
    let a = text(rt, b"<h2>Every filled log</h2>\n", buf, at);
    if filled == 0 {
        return text(
            rt,
            b"<p>No log of the window is filled.</p>\n<ul class=\"logs\">\n",
            buf,
            a,
        );
    }
    text(
        rt,
        b"<p class=\"soft\">The list is complete. Neighbours stand together as a range, from its first log to its last, \
        with the number of its logs beside it.</p>\n<ul class=\"logs\">\n",
        buf,
        a,
    )
}

// What stands after the list: where the proof is, and what it does not say.
pub fn back(rt: &HostRuntime, buf: &mut [u8; 65536], at: usize) -> usize {
    text(
        rt,
        b"</ul>\n<h2>Why there are no others</h2>\n<p>A record is on this list exactly if it is one of the window and does not carry the field. \
        That is no test of this file but a theorem, of every column, every window and both profiles, and a machine checked it: \
        <code>listed-exactly-if</code>, in <code>crates/profile_theorems/proofs/Lists.antt</code>. That the two numbers add up is \
        <code>counts-are-all</code> there; that searching one log after the other finds the same list is <code>filled-logs</code>, \
        in <code>Agrees.antt</code> beside it.</p>\n<p class=\"soft\"><code>docs/AUDIT.md</code> says what these say and what they rest on. \
        They speak of the column as it is stored: whether it has what the harvester reported is not theirs to say.</p>\n\
        </main>\n</body>\n</html>\n",
        buf,
        at,
    )
}
