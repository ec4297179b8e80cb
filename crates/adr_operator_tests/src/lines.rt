//! What no clause says: which text a line has, and what is left out.
use adr_log::{MOST_SHOWN, Shown, Writer};
use log::{Level, Log, Logged, info, warn};
use std::alloc::AllocError;
use std::fmt::Write;

const CASES: [(&str, &str); 5] = [
    ("", ""),
    ("page=/events?skip=50", "page=/events?skip=50"),
    ("no\nnew\r\nline", "no\\u{a}new\\u{d}\\u{a}line"),
    ("\u{1b}[2J \u{7f}", "\\u{1b}[2J \\u{7f}"),
    ("Z\u{fc}rich \u{2028}", "Z\\u{fc}rich \\u{2028}"),
];

#[test]
fn each_text_is_shown_on_one_line(rt: HostRuntime) {
    for (text, shown) in CASES {
        let mut line = Shown::new();
        assert!(rt; line.write_str(text).is_ok());
        assert_eq!(rt; line.as_str(), shown);
    }
}

#[test]
fn a_long_text_is_cut(rt: HostRuntime) {
    let mut line = Shown::new();
    for _ in 0..2_000 {
        assert!(rt; line.write_str("x").is_ok());
    }
    assert!(rt; line.as_str().len() < MOST_SHOWN);
}

// The lines themselves are seen on standard error, where nothing of a test reads them.
#[test]
fn a_record_is_written(rt: HostRuntime) -> Result<(), AllocError> {
    let writer = Writer::start(rt, rt.alloc())?;
    let rt = Logged::new(rt, Level::Info, writer.console());
    info!(rt; target: "node", at = "127.0.0.1:8080"; "listening");
    warn!(rt; target: "round", page = "/events?skip=50\n[INFO  node] forged"; "broke: {}", "status 404");
    assert!(rt; rt.enabled(&log::Metadata::new(Level::Info, "node")));
    writer.end();
    Ok(())
}
