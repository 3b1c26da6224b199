// Sheets, and what they print.
use crate::run::run_sheet;
use crate::state::Sheet;
use std::test::Fail;

#[test]
fn sheets_print(rt: HostRuntime) -> Result<(), Fail> {
    let cases = [
        ("(open plain 1 3 leg)\n", "(open 1)\n"),
        ("(open queue 32 1024 station)\n", "(open 32)\n"),
        ("(open ticket 33 1025 leg)\n", "(fault 1 1)\n"),
        ("(open ticket 0 1 leg)\n", "(fault 1 1)\n"),
        ("(open ticket 32 1025 leg)\n", "(fault 1 2)\n"),
        ("(open ticket 32 0 leg)\n", "(fault 1 2)\n"),
        (
            "(open plain 1 3 leg)\n(open plain 99 3 leg)\n",
            "(open 1)\n(fault 2 12)\n",
        ),
        (
            "(open plain 1 3 leg)\n\n(open plain 1 3 leg)\n",
            "(open 1)\n(fault 2 11)\n",
        ),
        ("(open plain 4294967295 3 leg)\n", "(fault 1 1)\n"),
        ("(open plain 4294967296 3 leg)\n", "(fault 1 11)\n"),
        ("(open plain 01 3 leg)\n", "(fault 1 11)\n"),
        ("(open plain 1 3 leg)", "(fault 1 11)\n"),
        ("(open plain 1 3 leg)\r\n", "(fault 1 11)\n"),
        ("(open plain  1 3 leg)\n", "(fault 1 11)\n"),
        ("(open plain 1 3 leg )\n", "(fault 1 11)\n"),
        ("(Open plain 1 3 leg)\n", "(fault 1 11)\n"),
        ("(opens plain 1 3 leg)\n", "(fault 1 11)\n"),
        ("(open plain 1 3)\n", "(fault 1 11)\n"),
        ("(open plain 1 3 legs)\n", "(fault 1 11)\n"),
        ("\n", "(fault 1 11)\n"),
        ("", "(fault 0 13)\n"),
    ];
    for (sheet, printed) in cases {
        let out = run_sheet(rt.alloc(), sheet.as_bytes())?;
        assert!(rt; out.as_slice() == printed.as_bytes(), "{}", sheet);
    }
    Ok(())
}

#[test]
fn a_short_output_is_refused(rt: HostRuntime) -> Result<(), Fail> {
    let mut out = [7u8; 2_047];
    let refused = Sheet::new()
        .run_line(b"(open plain 1 3 leg)\n", &mut out)
        .err();
    assert_eq!(rt; refused.map(|e| e.number()), Some(14));
    Ok(())
}
