// Sheets, and tickets named by them, with the answers that the rules give.
use catalogue::analyse::analyse;
use catalogue::catalogue::Catalogue;
use catalogue::refusal::CatalogueRefusal;
use catalogue::strategy::StrategyType;
use contracts::plain::{PlainLeg, Reference, State};
use notation::read::read_leg;
use records::read::read_record;
use records::trouble::Unread;
use records::write::record_text;
use sheet::record::Record;
use sheet::sheet::Sheet;
use std::alloc::Global;
use std::process::Abort;
use std::test::Fail;
use tickets::fault::{Fault, Layer};

static MARKET: Reference = Reference {
    core: 1,
    lot_size: 1,
    tick: 1,
    state: State::Trading,
    session_end: 1_439,
};

// Records, a ticket at minute 600, and its entry, direction and scale, type and seating.
struct Named {
    records: &'static str,
    ticket: &'static str,
    answer: (usize, u8, u32),
    strategy: StrategyType,
    seating: [u8; 4],
}

static NAMED: [Named; 9] = [
    // first of two entries that fit
    Named {
        records: "AA - B1C S1C;BB - B1C S1C",
        ticket: "B1:DOL:C:2019-08:100 S1:DOL:C:2019-08:110",
        answer: (1, 1, 1),
        strategy: StrategyType {
            first: b'A',
            second: b'A',
        },
        seating: [1, 2, 0, 0],
    },
    // BUY before SELL, though the seating of SELL is the smaller one
    Named {
        records: "AA - B1C S1C;BB - B1C S1C",
        ticket: "S1:DOL:C:2019-08:110 B1:DOL:C:2019-08:100",
        answer: (1, 1, 1),
        strategy: StrategyType {
            first: b'A',
            second: b'A',
        },
        seating: [2, 1, 0, 0],
    },
    // an entry that fits in direction SELL comes before a later one that fits in direction BUY
    Named {
        records: "LO M B1C S1C s:1<2;AN - B1C S1C",
        ticket: "S3:DOL:C:2019-08:100 B3:DOL:C:2019-08:110",
        answer: (1, 2, 3),
        strategy: StrategyType {
            first: b'L',
            second: b'O',
        },
        seating: [1, 2, 0, 0],
    },
    // the smallest of several seatings
    Named {
        records: "2C - B1C B1C;TR - B1C S1C S1C;4P - B1P B1P B1P B1P;T4 - S2P B1P B1P B1P m:2>3",
        ticket: "B7:DOL:C:2019-08:110 B7:DOL:C:2019-08:100",
        answer: (1, 1, 7),
        strategy: StrategyType {
            first: b'2',
            second: b'C',
        },
        seating: [1, 2, 0, 0],
    },
    Named {
        records: "2C - B1C B1C;TR - B1C S1C S1C;4P - B1P B1P B1P B1P;T4 - S2P B1P B1P B1P m:2>3",
        ticket: "S1:DOL:C:2019-08:110 B1:DOL:C:2019-08:100 S1:DOL:C:2019-08:120",
        answer: (2, 1, 1),
        strategy: StrategyType {
            first: b'T',
            second: b'R',
        },
        seating: [2, 1, 3, 0],
    },
    Named {
        records: "2C - B1C B1C;TR - B1C S1C S1C;4P - B1P B1P B1P B1P;T4 - S2P B1P B1P B1P m:2>3",
        ticket: "S2:DOL:P:2019-08:100 S2:DOL:P:2019-08:110 S2:DOL:P:2019-08:120 S2:DOL:P:2019-08:130",
        answer: (3, 2, 2),
        strategy: StrategyType {
            first: b'4',
            second: b'P',
        },
        seating: [1, 2, 3, 4],
    },
    Named {
        records: "2C - B1C B1C;TR - B1C S1C S1C;4P - B1P B1P B1P B1P;T4 - S2P B1P B1P B1P m:2>3",
        ticket: "B1:DOL:P:2019-08:100 B1:DOL:P:2019-09:100 S2:DOL:P:2019-08:110 B1:DOL:P:2019-10:100",
        answer: (4, 1, 1),
        strategy: StrategyType {
            first: b'T',
            second: b'4',
        },
        seating: [3, 2, 1, 4],
    },
    // ratios and not lots
    Named {
        records: "R2 - B1C S2C",
        ticket: "B5:DOL:C:2019-08:100 S10:DOL:C:2019-08:110",
        answer: (1, 1, 5),
        strategy: StrategyType {
            first: b'R',
            second: b'2',
        },
        seating: [1, 2, 0, 0],
    },
    Named {
        records: "SA - B1C S1C",
        ticket: "B1:DOL:C:2019-08:100 S1:DOL:C:2019-08:110",
        answer: (1, 1, 1),
        strategy: StrategyType {
            first: b'S',
            second: b'A',
        },
        seating: [1, 2, 0, 0],
    },
];

// Records, a minute, a ticket that is refused, and the number, layer and place of the refusal.
struct Unnamed {
    records: &'static str,
    minute: u32,
    ticket: &'static str,
    fault: Fault,
}

static UNNAMED: [Unnamed; 7] = [
    // a ratio that differs
    Unnamed {
        records: "R2 - B1C S2C",
        minute: 600,
        ticket: "B1:DOL:C:2019-08:100 S3:DOL:C:2019-08:110",
        fault: Fault {
            number: 12,
            layer: Layer::Catalogue,
            place: 0,
        },
    },
    // roles of a ratio with a common divisor are in form and fit nothing
    Unnamed {
        records: "R3 - B2C S2C",
        minute: 600,
        ticket: "B2:DOL:C:2019-08:100 S2:DOL:C:2019-08:110",
        fault: Fault {
            number: 12,
            layer: Layer::Catalogue,
            place: 0,
        },
    },
    // a refusal of the ticket comes before 12; five legs and more are refused whatever they are
    Unnamed {
        records: "R3 - B2C S2C",
        minute: 1440,
        ticket: "B1:DOL:C:2019-08:100",
        fault: Fault {
            number: 4,
            layer: Layer::Ticket,
            place: 0,
        },
    },
    Unnamed {
        records: "R3 - B2C S2C",
        minute: 600,
        ticket: "B1:DOL:C:2019-08:100",
        fault: Fault {
            number: 5,
            layer: Layer::Ticket,
            place: 0,
        },
    },
    Unnamed {
        records: "R3 - B2C S2C",
        minute: 600,
        ticket: "B1:DOL:F:2019-01 B1:DOL:F:2019-02 B1:DOL:F:2019-03 B1:DOL:F:2019-04 B1:DOL:F:2019-05 B0:DOL:F:2019-06",
        fault: Fault {
            number: 5,
            layer: Layer::Ticket,
            place: 0,
        },
    },
    Unnamed {
        records: "R3 - B2C S2C",
        minute: 600,
        ticket: "B1:DOL:C:2019-08:100 S1:DOL:C:2019-08:100",
        fault: Fault {
            number: 7,
            layer: Layer::Ticket,
            place: 2,
        },
    },
    // no entries
    Unnamed {
        records: "",
        minute: 600,
        ticket: "B1:DOL:C:2019-08:100 S1:DOL:C:2019-08:110",
        fault: Fault {
            number: 12,
            layer: Layer::Catalogue,
            place: 0,
        },
    },
];

// A record without its type, and a ticket that it fits in the order typed.
static HOLDS: [(&str, &str); 17] = [
    (
        "- B1C S2C s:1<2",
        "B1:DOL:C:2019-08:100 S2:DOL:C:2019-08:110",
    ),
    (
        "- B1C S2C s:1=2",
        "B1:DOL:C:2019-08:110 S2:DOL:C:2019-09:110",
    ),
    (
        "- B1C S2C s:1>2",
        "B1:DOL:C:2019-08:110 S2:DOL:C:2019-09:109",
    ),
    (
        "- B1C S2C s:1!2",
        "B1:DOL:C:2019-08:110 S2:DOL:C:2019-09:109",
    ),
    (
        "- B1C S2C s:2<1",
        "B1:DOL:C:2019-08:110 S2:DOL:C:2019-09:109",
    ),
    ("- B1F S2C m:1<2", "B1:DOL:F:2019-12 S2:DOL:C:2020-01:100"),
    ("- B1F S2C m:1=2", "B1:DOL:F:2020-01 S2:DOL:C:2020-01:100"),
    ("- B1F S2C m:1>2", "B1:DOL:F:2020-01 S2:DOL:C:2019-12:100"),
    ("- B1F S2C m:1!2", "B1:DOL:F:2019-11 S2:DOL:C:2019-12:100"),
    (
        "- B1C S2C B3P s:1~2~3",
        "B1:DOL:C:2019-12:100 S2:DOL:C:2019-12:110 B3:DOL:P:2019-12:120",
    ),
    (
        "- B1C S2C B3P s:1~2~3",
        "B1:DOL:C:2019-12:120 S2:DOL:C:2019-12:110 B3:DOL:P:2019-12:100",
    ),
    (
        "- B1C S2C B3P s:1~3~2",
        "B1:DOL:C:2019-12:100 S2:DOL:C:2019-12:120 B3:DOL:P:2019-12:110",
    ),
    (
        "- B1C S2C B3F m:1~2~3",
        "B1:DOL:C:2019-11:100 S2:DOL:C:2020-02:110 B3:DOL:F:2020-05",
    ),
    ("- B1C S2C", "B1:DOL:C:2019-08:100 S2:WIN:C:2019-08:110"),
    (
        "M B1C S2C",
        "B1:DOL:C:2019-08:100@2019-09 S2:DOL:C:2019-08:110@2019-09",
    ),
    ("M B1F S2C", "B1:DOL:F:2019-08 S2:DOL:C:2019-08:110@2019-09"),
    ("- B1C S2P", "B1:DOL:C:2019-08:100 S2:DOL:P:2019-08:110"),
];

// A record without its type, and a ticket that it does not fit.
static FAILS: [(&str, &str); 22] = [
    (
        "- B1C S2C s:1<2",
        "B1:DOL:C:2019-08:110 S2:DOL:C:2019-08:110@2019-09",
    ),
    (
        "- B1C S2C s:1<2",
        "B1:DOL:C:2019-08:120 S2:DOL:C:2019-08:110",
    ),
    (
        "- B1C S2C s:1=2",
        "B1:DOL:C:2019-08:110 S2:DOL:C:2019-09:111",
    ),
    (
        "- B1C S2C s:1>2",
        "B1:DOL:C:2019-08:110 S2:DOL:C:2019-09:110",
    ),
    (
        "- B1C S2C s:1!2",
        "B1:DOL:C:2019-08:110 S2:DOL:C:2019-09:110",
    ),
    ("- B1F S2C m:1<2", "B1:DOL:F:2020-01 S2:DOL:C:2020-01:100"),
    ("- B1F S2C m:1>2", "B1:DOL:F:2019-12 S2:DOL:C:2019-12:100"),
    ("- B1F S2C m:1!2", "B1:DOL:F:2019-12 S2:DOL:C:2019-12:100"),
    ("- B1F S2C s:1<2", "B1:DOL:F:2019-12 S2:DOL:C:2019-12:100"),
    ("- B1F S2C s:2!1", "B1:DOL:F:2019-12 S2:DOL:C:2019-12:100"),
    (
        "- B1C S2C B3P s:1~2~3",
        "B1:DOL:C:2019-12:100 S2:DOL:C:2019-12:110 B3:DOL:P:2019-12:121",
    ),
    (
        "- B1C S2C B3P s:1~2~3",
        "B1:DOL:C:2019-12:100 S2:DOL:C:2019-12:110 B3:DOL:P:2019-12:100",
    ),
    (
        "- B1C S2C B3F m:1~2~3",
        "B1:DOL:C:2019-11:100 S2:DOL:C:2020-02:110 B3:DOL:F:2020-06",
    ),
    (
        "- B1C S2C B3F s:1~2~3",
        "B1:DOL:C:2019-11:100 S2:DOL:C:2020-02:110 B3:DOL:F:2020-05",
    ),
    ("M B1C S2C", "B1:DOL:C:2019-08:100 S2:WIN:C:2019-08:110"),
    (
        "M B1C S2C",
        "B1:DOL:C:2019-08:100 S2:DOL:C:2019-08:110@2019-08",
    ),
    (
        "M B1C S2C",
        "B1:DOL:C:2019-08:100@2019-09 S2:DOL:C:2019-08:110@2019-10",
    ),
    ("M B1F S2C", "B1:WIN:F:2019-08 S2:DOL:C:2019-08:110@2019-09"),
    (
        "M B1F S2C B3P",
        "B1:DOL:F:2019-08 S2:DOL:C:2019-08:110@2019-09 B3:DOL:P:2019-08:110",
    ),
    ("- B1C S2P", "B1:DOL:C:2019-08:100 S2:DOL:C:2019-08:110"),
    ("- B1C S2P", "B1:DOL:C:2019-08:100 B2:DOL:P:2019-08:110"),
    (
        "- B1C S2P",
        "B1:DOL:C:2019-08:100 S2:DOL:P:2019-08:110 B1:DOL:F:2019-08",
    ),
];

// Records at the bounds of the form.
static IN_FORM: [&str; 6] = [
    "00 - B1C S1C",
    "ZZ M S9P B1F",
    "A9 - B1C S1C B1P S1P",
    "A1 - B1F S1C s:1<2",
    "A1 - B1C S1C s:1<2 s:2>1 s:1!2 m:1=2 m:2=1 s:1<2",
    "A1 - B1C S1C B1C s:3~1~2",
];

// Each way for a record to be out of form.
static OUT_OF_FORM: [&str; 23] = [
    "a1 - B1C S1C",
    "A- - B1C S1C",
    "A@ - B1C S1C",
    "A[ - B1C S1C",
    "/1 - B1C S1C",
    ":1 - B1C S1C",
    "A1 M",
    "A1 M B1C",
    "A1 - B1C S1C B1C S1C B1C",
    "A1 - B0C S1C",
    "A1 - B1C S10C",
    "A1 - B1C S1C s:1<2 s:2>1 s:1!2 m:1=2 m:2=1 s:1<2 s:1<2",
    "A1 - B1C S1C s:0<2",
    "A1 - B1C S1C s:1<0",
    "A1 - B1C S1C s:3<1",
    "A1 - B1C S1C m:1<3",
    "A1 - B1C S1C m:2=2",
    "A1 - B1C S1C B1C s:1~2~4",
    "A1 - B1C S1C B1C s:0~2~3",
    "A1 - B1C S1C B1C s:1~2~1",
    "A1 - B1C S1C B1C s:1~1~2",
    "A1 - B1C S1C B1C m:3~2~2",
    "A1 - B1C S1C B1C m:3~5~2",
];

// Texts that are no record, with the word that is at fault.
static DAMAGED: [(&str, usize); 20] = [
    ("", 1),
    ("A1", 2),
    ("A1B M", 1),
    ("A M", 1),
    ("A1 m", 2),
    ("A1 MM B1C", 2),
    ("A1 M B1c", 3),
    ("A1 M BC", 3),
    ("A1 M B1C 1C", 4),
    ("A1 M B-1C", 3),
    ("A1 M B4294967296C", 3),
    ("A1 M B1C s:1<2 S1C", 5),
    ("A1 M B1C s1<2", 4),
    ("A1 M B1C x:1<2", 4),
    ("A1 M s:1<", 3),
    ("A1 M s:<2", 3),
    ("A1 M s:1<2<3", 3),
    ("A1 M s:1~2", 3),
    ("A1 M s:1~2~3~4", 3),
    ("A1 M s:1?2", 3),
];

fn read(heap: Global, text: &str) -> Result<Record, Fail> {
    Ok(
        read_record(heap, text.as_bytes())
            .ok()
            .ok_or("the record cannot be read")?,
    )
}

// The sheet of records that are parted by `;`.
fn sheet_of(heap: Global, texts: &str) -> Result<Result<Sheet, CatalogueRefusal>, Fail> {
    let mut records = Vec::new(heap);
    for text in texts.split(';') {
        if !text.is_empty() {
            records.push(read(heap, text)?)?;
        }
    }
    Ok(Sheet::new(records))
}

fn legs_of(heap: Global, ticket: &str) -> Result<Vec<PlainLeg>, Fail> {
    let mut legs = Vec::new(heap);
    for text in ticket.split(' ') {
        let leg = read_leg(text.as_bytes(), &MARKET)
            .ok()
            .ok_or("the leg cannot be read")?;
        legs.push(leg)?;
    }
    Ok(legs)
}

const LENT: StrategyType = StrategyType {
    first: b'?',
    second: b'?',
};

// What an analysis over a sheet answers, with what it leaves in the places lent.
fn analysed(
    heap: Global,
    records: &str,
    minute: u32,
    ticket: &str,
) -> Result<(Result<(usize, u8, u32), Fault>, StrategyType, [u8; 4]), Fail> {
    let sheet = sheet_of(heap, records)?.ok().ok_or("the sheet is refused")?;
    let legs = legs_of(heap, ticket)?;
    let mut strategy = LENT;
    let mut seating = [9; 4];
    let answer = analyse(&sheet, minute, &legs, &mut strategy, &mut seating);
    Ok((answer, strategy, seating))
}

#[test]
fn tickets_are_named_by_the_first_fit(rt: HostRuntime) -> Result<(), Fail> {
    for row in NAMED.iter() {
        let (answer, strategy, seating) = analysed(rt.alloc(), row.records, 600, row.ticket)?;
        assert!(rt; answer == Ok(row.answer), "{}", row.ticket);
        assert!(rt; strategy == row.strategy, "{}", row.ticket);
        assert!(rt; seating == row.seating, "{}", row.ticket);
    }
    Ok(())
}

// A refused analysis writes nothing.
fn refused_with(
    rt: &impl Abort,
    heap: Global,
    records: &str,
    minute: u32,
    ticket: &str,
    fault: Fault,
) -> Result<(), Fail> {
    let (answer, strategy, seating) = analysed(heap, records, minute, ticket)?;
    assert!(rt; answer == Err(fault), "{}", ticket);
    assert!(rt; strategy == LENT, "{}", ticket);
    assert!(rt; seating == [9; 4], "{}", ticket);
    Ok(())
}

#[test]
fn tickets_are_refused_by_the_first_refusal(rt: HostRuntime) -> Result<(), Fail> {
    for row in UNNAMED.iter() {
        refused_with(
            &rt,
            rt.alloc(),
            row.records,
            row.minute,
            row.ticket,
            row.fault,
        )?;
    }
    Ok(())
}

static NO_ENTRY_FITS: Fault = Fault {
    number: 12,
    layer: Layer::Catalogue,
    place: 0,
};

#[test]
fn a_record_fits_what_it_says(rt: HostRuntime) -> Result<(), Fail> {
    let heap = rt.alloc();
    for (text, ticket) in HOLDS.iter() {
        let record = format!(in heap; "T1 {text}")?;
        let (answer, _, seating) = analysed(heap, record.as_str(), 600, ticket)?;
        assert!(rt; answer == Ok((1, 1, 1)), "{} {}", text, ticket);
        assert!(rt; seating[0] == 1 && seating[1] == 2, "{} {}", text, ticket);
    }
    for (text, ticket) in FAILS.iter() {
        let record = format!(in heap; "T1 {text}")?;
        refused_with(&rt, heap, record.as_str(), 600, ticket, NO_ENTRY_FITS)?;
    }
    Ok(())
}

#[test]
fn a_record_is_in_form_or_refused(rt: HostRuntime) -> Result<(), Fail> {
    let heap = rt.alloc();
    for text in IN_FORM.iter() {
        assert!(rt; sheet_of(heap, text)?.is_ok(), "{}", *text);
    }
    for text in OUT_OF_FORM.iter() {
        let refusal = sheet_of(heap, text)?.err();
        assert!(rt;
            refusal == Some(CatalogueRefusal::OutOfForm { record: 1 }),
            "{}",
            *text
        );
    }
    Ok(())
}

// A sheet of so many records, of which one may be out of form.
fn counted(
    heap: Global,
    count: usize,
    bad: usize,
) -> Result<Result<Sheet, CatalogueRefusal>, Fail> {
    let mut records = Vec::new(heap);
    for i in 0..count {
        let text = if i + 1 == bad {
            "A1 - B1C"
        } else {
            "A1 - B1C S1C"
        };
        records.push(read(heap, text)?)?;
    }
    Ok(Sheet::new(records))
}

#[test]
fn a_sheet_has_64_records_at_most(rt: HostRuntime) -> Result<(), Fail> {
    let heap = rt.alloc();
    let whole = counted(heap, 64, 0)?.ok().ok_or("64 records are refused")?;
    assert!(rt; whole.count() == 64);
    let long = counted(heap, 65, 0)?.err();
    assert!(rt; long == Some(CatalogueRefusal::TooManyRecords));
    let last = counted(heap, 64, 64)?.err();
    assert!(rt; last == Some(CatalogueRefusal::OutOfForm { record: 64 }));
    let behind = counted(heap, 70, 68)?.err();
    assert!(rt; behind == Some(CatalogueRefusal::OutOfForm { record: 68 }));
    Ok(())
}

#[test]
fn a_damaged_record_tells_the_word(rt: HostRuntime) {
    for (text, word) in DAMAGED.iter() {
        match read_record(rt.alloc(), text.as_bytes()) {
            Err(Unread::Trouble(trouble)) => assert!(rt; trouble.word == *word, "{}", *text),
            _ => assert!(rt; false, "{}", *text),
        }
    }
}

#[test]
fn a_record_is_written_as_it_was_read(rt: HostRuntime) -> Result<(), Fail> {
    let heap = rt.alloc();
    for text in IN_FORM.iter() {
        let record = read(heap, text)?;
        assert!(rt;
            record_text(heap, &record)?.as_slice() == text.as_bytes(),
            "{}",
            *text
        );
    }
    Ok(())
}
