// The formats, and what one of them alone has: JSON, the brackets and commas of a list.
use crate::printing::text;
use words::places::{CSV, JSON};

// One of three texts, by the format.
pub fn said(rt: &HostRuntime, form: usize, lines: &[u8], csv: &[u8], json: &[u8]) -> bool {
    if form == CSV {
        return text(rt, csv);
    }
    if form == JSON {
        return text(rt, json);
    }
    text(rt, lines)
}

// The byte before the first item of a list; 0: none.
pub fn lead(form: usize) -> u8 {
    if form == JSON { 91 } else { 0 }
}

// The byte before the item that follows one with this byte before it.
pub fn next(lead: u8) -> u8 {
    if lead == 91 { 44 } else { lead }
}

// The end of a list, by the byte that would stand before its next item.
pub fn closed(rt: &HostRuntime, lead: u8) -> bool {
    if lead == 91 {
        return text(rt, b"[]\n");
    }
    if lead == 44 {
        return text(rt, b"]\n");
    }
    true
}
