// Lines of a script with the answers that the rules give them.
use script::session::Session;
use script::text::answer_text;
use std::alloc::Global;
use std::process::Abort;
use std::test::Fail;

// Under the market of the start, 1 1 1 T 1439: each refusal at its bounds.
static BOUNDS: [(&str, &str); 38] = [
    (
        "ticket 1439 B1:DOL:F:2019-09 S1:DOL:F:2019-10",
        "1 ticket NO 11 T 1",
    ),
    (
        "ticket 1440 B1:DOL:F:2019-09 S1:DOL:F:2019-10",
        "1 ticket NO 4 T 0",
    ),
    ("ticket 600 B1:DOL:F:2019-09", "1 ticket NO 5 T 0"),
    (
        "ticket 0 B1:DOL:F:2000-01 S1:DOL:F:2099-12",
        "1 ticket 1 1,1",
    ),
    (
        "ticket 600 B1:DOL:F:1999-12 S1:DOL:F:2019-10",
        "1 ticket NO 6 T 1",
    ),
    (
        "ticket 600 B1:DOL:F:2019-09 S1:DOL:F:2100-01",
        "1 ticket NO 6 T 2",
    ),
    (
        "ticket 600 B1:DOL:F:2019-00 S1:DOL:F:2019-10",
        "1 ticket NO 6 T 1",
    ),
    (
        "ticket 600 B9999:DOL:F:2019-09 S1:DOL:F:2019-10",
        "1 ticket 1 9999,1",
    ),
    (
        "ticket 600 B10000:DOL:F:2019-09 S1:DOL:F:2019-10",
        "1 ticket NO 6 T 1",
    ),
    (
        "ticket 600 B1:DoL:F:2019-09 S1:DOL:F:2019-10",
        "1 ticket NO 6 T 1",
    ),
    (
        "ticket 600 B1:D1Z:F:2019-09 S1:A09:F:2019-10",
        "1 ticket 1 1,1",
    ),
    (
        "ticket 600 B1:DOL:C:2019-09:0 S1:DOL:F:2019-10",
        "1 ticket NO 6 T 1",
    ),
    (
        "ticket 600 B1:DOL:C:2019-09:99999999 S1:DOL:F:2019-10",
        "1 ticket 1 1,1",
    ),
    (
        "ticket 600 B1:DOL:C:2019-09:100000000 S1:DOL:F:2019-10",
        "1 ticket NO 6 T 1",
    ),
    (
        "ticket 600 B1:DOL:F:2019-09/99/1/1/T/630 S1:DOL:F:2019-10/99/1/1/T/1439",
        "1 ticket 1 1,1",
    ),
    (
        "ticket 601 B1:DOL:F:2019-09/99/1/1/T/1439 S1:DOL:F:2019-10/99/1/1/T/630",
        "1 ticket NO 11 T 2",
    ),
    (
        "ticket 600 B1:DOL:F:2019-09/100/1/1/T/630 S1:DOL:F:2019-10/99/1/1/T/1439",
        "1 ticket NO 6 T 1",
    ),
    (
        "ticket 600 B1:DOL:F:2019-09/1/1000000/1000000/T/1439 S1:DOL:F:2019-10/1/1000001/1/T/1439",
        "1 ticket NO 6 T 2",
    ),
    (
        "ticket 0 B1:DOL:F:2019-09/1/1/1/T/30 S1:DOL:F:2019-10",
        "1 ticket 1 1,1",
    ),
    (
        "ticket 0 B1:DOL:F:2019-09/1/1/1/T/29 S1:DOL:F:2019-10",
        "1 ticket NO 6 T 1",
    ),
    (
        "ticket 0 B1:DOL:F:2019-09/1/1/1/T/1440 S1:DOL:F:2019-10",
        "1 ticket NO 6 T 1",
    ),
    (
        "ticket 600 B1:DOL:C:2019-09:10 S1:DOL:P:2019-09:10 B1:DOL:C:2019-09:10@2019-10 S1:DOL:F:2019-09",
        "1 ticket 1 1,1,1,1",
    ),
    (
        "ticket 600 B1:DOL:C:2019-09:10 S1:DOL:P:2019-09:10 B2:DOL:P:2019-09:10 S1:DOL:C:2019-09:10",
        "1 ticket NO 7 T 3",
    ),
    (
        "ticket 600 B1:DOL:F:2019-09/2/1/1/T/1439 S1:DOL:F:2019-10",
        "1 ticket NO 8 T 2",
    ),
    (
        "ticket 600 B1:DOL:F:2019-09/1/1/2/T/1439 S1:DOL:F:2019-10",
        "1 ticket NO 9 T 2",
    ),
    (
        "ticket 600 B1:DOL:F:2019-09/1/2/1/T/1439 S1:DOL:F:2019-10/2/1/1/T/1439",
        "1 ticket NO 8 T 2",
    ),
    (
        "ticket 600 B1:DOL:F:2019-09 S1:DOL:F:2019-10/1/1/1/X/1439 B1:DOL:F:2019-11/1/1/1/H/1439",
        "1 ticket NO 10 T 2",
    ),
    (
        "ticket 1420 B1:DOL:F:2019-09/1/1/1/H/1439 S1:DOL:F:2019-10",
        "1 ticket NO 10 T 1",
    ),
    (
        "ticket 600 B12:DOL:F:2019-09 S18:DOL:F:2019-10 B30:DOL:F:2019-11 S42:DOL:F:2019-12",
        "1 ticket 6 2,3,5,7",
    ),
    (
        "ticket 600 B1:DOL:F:2019-13 S1:DOL:F:2019-10",
        "1 ticket NO 6 T 1",
    ),
    (
        "ticket 600 B0:DOL:F:2019-09 S1:DOL:F:2019-10",
        "1 ticket NO 6 T 1",
    ),
    (
        "ticket 600 B1:DOL:P:2019-09:1 S1:DOL:P:2019-09:2@2099-12",
        "1 ticket 1 1,1",
    ),
    (
        "ticket 600 B1:DOL:P:2019-09:1 S1:DOL:P:2019-09:2@2100-01",
        "1 ticket NO 6 T 2",
    ),
    (
        "ticket 600 B1:DOL:F:2019-09/0/1/1/T/1439 S1:DOL:F:2019-10",
        "1 ticket NO 6 T 1",
    ),
    (
        "ticket 600 B1:DOL:F:2019-09/1/0/1/T/1439 S1:DOL:F:2019-10",
        "1 ticket NO 6 T 1",
    ),
    (
        "ticket 600 B1:DOL:F:2019-09/1/1/0/T/1439 S1:DOL:F:2019-10",
        "1 ticket NO 6 T 1",
    ),
    (
        "ticket 600 B1:DOL:F:2019-09/1/1/1000001/T/1439 S1:DOL:F:2019-10",
        "1 ticket NO 6 T 1",
    ),
    (
        "ticket 600 B1:DOL:F:2019-01 B1:DOL:F:2019-02 B1:DOL:F:2019-03 B1:DOL:F:2019-04 B1:DOL:F:2019-05 B0:DOL:F:2019-06",
        "1 ticket NO 5 T 0",
    ),
];

// Lines that cannot be read, each with the word that is at fault.
static DAMAGED: [(&str, &str); 14] = [
    ("tickets 600", "1 error word 1:"),
    ("Market 1 1 1 T 1439", "1 error word 1:"),
    ("\tticket 600", "1 error word 1:"),
    ("ticket", "1 error word 2:"),
    ("ticket -1 B1:DOL:F:2019-09", "1 error word 2:"),
    ("ticket 4294967296", "1 error word 2:"),
    (
        "ticket 600 B1:DOL:F:2019-09 S1:DOL:F:2019",
        "1 error word 4:",
    ),
    (
        "ticket 600 B0:DOL:F:2019-09 S1:DOL:F:2019-10 X",
        "1 error word 5:",
    ),
    (
        "ticket 600 B1:DOL:F:2019-09:3800 S1:DOL:F:2019-10",
        "1 error word 3:",
    ),
    (
        "ticket 600 B1:DO:F:2019-09 S1:DOL:F:2019-10",
        "1 error word 3:",
    ),
    ("market 1 1 1 T", "1 error word 6:"),
    ("market 1 1 1 B 1439", "1 error word 5:"),
    ("market 1 1 1 T 1439 1", "1 error word 7:"),
    ("market 1 1 99999999999 T 1439", "1 error word 4:"),
];

// Lines that are passed over.
static SILENT: [&str; 5] = ["", "   ", "# ticket 600", "  #", "\r"];

fn answer_starts(rt: &impl Abort, heap: Global, line: &str, wanted: &str) -> Result<(), Fail> {
    let mut session = Session::new();
    let Some(answer) = session.answer(line.as_bytes()) else {
        assert!(rt; false, "{}", line);
        return Ok(());
    };
    let text = answer_text(heap, 1, &answer)?;
    assert!(rt; text.as_str().starts_with(wanted), "{}", line);
    Ok(())
}

#[test]
fn each_refusal_stands_at_its_bounds(rt: HostRuntime) -> Result<(), Fail> {
    for (line, wanted) in BOUNDS.iter() {
        answer_starts(&rt, rt.alloc(), line, wanted)?;
    }
    Ok(())
}

#[test]
fn a_damaged_line_tells_the_word(rt: HostRuntime) -> Result<(), Fail> {
    for (line, wanted) in DAMAGED.iter() {
        answer_starts(&rt, rt.alloc(), line, wanted)?;
    }
    Ok(())
}

#[test]
fn some_lines_are_passed_over(rt: HostRuntime) {
    let mut session = Session::new();
    for line in SILENT.iter() {
        assert!(rt; session.answer(line.as_bytes()).is_none(), "{}", *line);
    }
}

// A market line holds for what follows, unless it cannot be read.
#[test]
fn the_market_stays(rt: HostRuntime) -> Result<(), Fail> {
    let heap = rt.alloc();
    let mut session = Session::new();
    let _ = session.answer(b"market 7 1 1 T 1080\r\n");
    let _ = session.answer(b"market 8 1 1 T\n");
    let line = b"ticket 600 B1:DOL:F:2019-09 S1:DOL:F:2019-10/7/1/1/T/1439\n";
    let Some(answer) = session.answer(line) else {
        assert!(rt; false);
        return Ok(());
    };
    assert!(rt; answer_text(heap, 3, &answer)?.as_str() == "3 ticket 1 1,1");
    Ok(())
}
