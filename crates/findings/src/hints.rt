// Hints on faults of the list text, from the text at the fault.
use adltoken::{Tokens, starts_in_any_case};
use list_terms::TextFault;
use percent_encoding::percent_decode;

/// The kind of a line, from its keyword.
#[derive(Clone, Copy, Debug, PartialEq, Eq)]
enum LineKind {
    Index,
    Entry,
    Fade,
    Gain,
    Setting,
    Other,
}

/// Returns a hint on a fault; `stood` is the text at the fault.
pub fn hint_at(fault: TextFault, stood: &[u8], line: &[u8], list: &[u8]) -> Option<&'static str> {
    if list.starts_with(b"\xff\xfe") || list.starts_with(b"\xfe\xff") {
        return Some("the list is UTF-16: save it as UTF-8");
    }
    match fault {
        TextFault::BadUrl => url_hint(stood),
        TextFault::Unsupported => form_read(kind_of_line(line)),
        _ => None,
    }
}

/// Returns the only form that is supported in a line of this kind.
fn form_read(kind: LineKind) -> Option<&'static str> {
    match kind {
        LineKind::Index => Some("of indexes only files, (F), are supported"),
        LineKind::Entry => Some("of entries only (Cut) I is supported, with a capital I"),
        LineKind::Fade => Some("of curves only LIN is supported"),
        LineKind::Gain => Some("only a gain of zero is supported: another one changes the sound"),
        LineKind::Setting => Some("only zero is supported there"),
        LineKind::Other => None,
    }
}

/// Returns the kind of a line from its first token.
fn kind_of_line(line: &[u8]) -> LineKind {
    match Tokens::new(line).next_token() {
        Ok(Some(token)) => kind_of(token.content),
        _ => LineKind::Other,
    }
}

/// Returns the kind of a line with this keyword.
fn kind_of(keyword: &[u8]) -> LineKind {
    if keyword.eq_ignore_ascii_case(b"Index") {
        LineKind::Index
    } else if keyword.eq_ignore_ascii_case(b"Entry") {
        LineKind::Entry
    } else if keyword.eq_ignore_ascii_case(b"Infade") || keyword.eq_ignore_ascii_case(b"Outfade") {
        LineKind::Fade
    } else if keyword.eq_ignore_ascii_case(b"Gain") {
        LineKind::Gain
    } else if keyword.eq_ignore_ascii_case(b"SYS_GAIN")
        || keyword.eq_ignore_ascii_case(b"SYS_SRC_OFFSET")
    {
        LineKind::Setting
    } else {
        LineKind::Other
    }
}

/// Returns a hint on a URL that names no file.
fn url_hint(stood: &[u8]) -> Option<&'static str> {
    if stood.contains(&b'\\') {
        return Some("it holds \\, but / parts folders");
    }
    if has_other_text(path_in(stood)?) {
        return Some("the name of the file isn't UTF-8");
    }
    None
}

/// Returns the path of a URL in a supported form, without the host.
fn path_in(stood: &[u8]) -> Option<&[u8]> {
    let url = stood.strip_prefix(b"\"").unwrap_or(stood);
    let file = if starts_in_any_case(b"url:", url) {
        url.get(4..)?
    } else {
        url
    };
    if !starts_in_any_case(b"file://", file) {
        return None;
    }
    let address = file.get(7..)?;
    let mut parts = address.splitn(2, |byte| *byte == b'/');
    parts.next()?;
    parts.next()
}

/// Returns whether the last component of the path is invalid only because it isn't UTF-8.
fn has_other_text(path: &[u8]) -> bool {
    let Some(name) = path.split(|byte| *byte == b'/').last() else {
        return false;
    };
    percent_decode(name).any(|byte| byte >= 0x80)
        && percent_decode(name).all(|byte| byte != 0 && byte != b'/')
}
