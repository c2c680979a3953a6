// Lists of words with what they ask for, as the rules of commands, options and operands say.
use crate::{WordsFault, settings};
use std::alloc::Global;
use std::process::Abort;
use std::test::Fail;

// What the words give, as one line.
fn told(alloc: Global, words: &[String]) -> Result<String, Fail> {
    let line = match settings(alloc, words) {
        Ok(settings) => format!(in alloc; "{settings:?}")?,
        Err(WordsFault::Refused(kind)) => format!(in alloc; "{kind:?}")?,
        Err(WordsFault::NoMemory) => String::from_str(alloc, "no memory")?,
    };
    Ok(line)
}

// The words of a line, parted by one blank each.
fn words_of(alloc: Global, line: &str) -> Result<Vec<String>, Fail> {
    let mut words = Vec::new(alloc);
    for word in line.split(' ') {
        words.push(String::from_str(alloc, word)?)?;
    }
    Ok(words)
}

// Words, parted by blanks, and what they give.
type Row = (&'static str, &'static str);

fn compare(rt: &impl Abort, alloc: Global, rows: &[Row]) -> Result<(), Fail> {
    for row in rows {
        let (line, want) = *row;
        let words = words_of(alloc, line)?;
        let got = told(alloc, &words)?;
        assert_eq!(rt; got.as_str(), want, "{line}");
    }
    Ok(())
}

const PLACES: [Row; 10] = [
    (
        "run l r",
        "Run { left: \"l\", right: \"r\", policy: None, schedule: \"\", budget: 1000000, traced: false }",
    ),
    (
        "run --trace l r --budget=12",
        "Run { left: \"l\", right: \"r\", policy: None, schedule: \"\", budget: 12, traced: true }",
    ),
    (
        "run l --budget 12 r --trace",
        "Run { left: \"l\", right: \"r\", policy: None, schedule: \"\", budget: 12, traced: true }",
    ),
    (
        "run --budget=12 --trace -- l r",
        "Run { left: \"l\", right: \"r\", policy: None, schedule: \"\", budget: 12, traced: true }",
    ),
    (
        "run l r --policy p --schedule LRX --budget 0 --trace",
        "Run { left: \"l\", right: \"r\", policy: Some(\"p\"), schedule: \"LRX\", budget: 0, traced: true }",
    ),
    (
        "run --trace --budget=0 l --schedule=LRX r --policy=p",
        "Run { left: \"l\", right: \"r\", policy: Some(\"p\"), schedule: \"LRX\", budget: 0, traced: true }",
    ),
    ("--trace run l r", "Usage"),
    ("run l", "Usage"),
    ("run l r x", "Usage"),
    ("Run l r", "Usage"),
];

const SPELLING: [Row; 19] = [
    ("--help", "Usage"),
    ("-h", "Usage"),
    ("help run", "Usage"),
    ("run l r --help", "Usage"),
    ("run l r --budg=5", "Usage"),
    ("run l r -b5", "Usage"),
    ("run l r --Trace", "Usage"),
    ("run l r --budget 5 --budget 6", "Usage"),
    ("run l r --budget 5 --budget=5", "Usage"),
    ("run l r --trace --trace", "Usage"),
    ("run l r --trace=1", "Usage"),
    ("run l r --trace=", "Usage"),
    ("run l r --budget=", "Usage"),
    ("run l r --budget", "Usage"),
    ("run l r --budget ", "Usage"),
    ("run l r --budget --", "Usage"),
    ("run l r --policy -p", "Usage"),
    ("check f --trace", "Usage"),
    ("shared l r --policy=p", "Usage"),
];

const HYPHENS: [Row; 11] = [
    (
        "run -- -l r",
        "Run { left: \"-l\", right: \"r\", policy: None, schedule: \"\", budget: 1000000, traced: false }",
    ),
    (
        "run -- -- --trace",
        "Run { left: \"--\", right: \"--trace\", policy: None, schedule: \"\", budget: 1000000, traced: false }",
    ),
    (
        "run - --policy - r",
        "Run { left: \"-\", right: \"r\", policy: Some(\"-\"), schedule: \"\", budget: 1000000, traced: false }",
    ),
    (
        "run l r --policy=-p=q",
        "Run { left: \"l\", right: \"r\", policy: Some(\"-p=q\"), schedule: \"\", budget: 1000000, traced: false }",
    ),
    ("check -- f", "Check { file: \"f\" }"),
    ("check f --", "Check { file: \"f\" }"),
    ("check -- -h", "Check { file: \"-h\" }"),
    ("check ", "Usage"),
    ("check -- ", "Usage"),
    (" f", "Usage"),
    ("", "Usage"),
];

const FAULTS: [Row; 14] = [
    ("run l r --schedule LQ", "Schedule { at: 1 }"),
    ("run l r --schedule lr", "Schedule { at: 0 }"),
    ("shared l r --schedule LX", "Schedule { at: 1 }"),
    ("run l r --budget=x --schedule=LQ", "Schedule { at: 1 }"),
    ("run l r x --budget=x --schedule=LQ", "Usage"),
    ("run l r --budget 4000001", "Budget"),
    ("run l r --budget 4294967296", "Budget"),
    (
        "run l r --budget 1111111111222222222233333333334444444444",
        "Budget",
    ),
    ("run l r --budget 01", "Budget"),
    ("run l r --budget +1", "Budget"),
    ("run l r --budget=-1", "Budget"),
    ("run l r --budget 1e3", "Budget"),
    ("shared l r --budget -", "Budget"),
    (
        "shared l r --budget 4000000 --schedule RL --trace",
        "Shared { left: \"l\", right: \"r\", schedule: \"RL\", budget: 4000000, traced: true }",
    ),
];

const SIDES: [Row; 9] = [
    ("sides a", "Usage"),
    (
        "sides a b",
        "Sides { scripts: [\"a\", \"b\"], policy: None, schedule: \"\", budget: 1000000, traced: false }",
    ),
    (
        "sides a --policy=p b --schedule CABX --trace c --budget 7",
        "Sides { scripts: [\"a\", \"b\", \"c\"], policy: Some(\"p\"), schedule: \"CABX\", budget: 7, traced: true }",
    ),
    (
        "sides a b c d e f g h --schedule=AH --budget=9",
        "Sides { scripts: [\"a\", \"b\", \"c\", \"d\", \"e\", \"f\", \"g\", \"h\"], policy: None, schedule: \"AH\", budget: 9, traced: false }",
    ),
    ("sides a b c d e f g h i", "Usage"),
    ("sides a b c --schedule D", "Schedule { at: 0 }"),
    ("sides a b --schedule ABC", "Schedule { at: 2 }"),
    ("sides a b --schedule L", "Schedule { at: 0 }"),
    ("sides a b --schedule @", "Schedule { at: 0 }"),
];

const PAIRS: [Row; 9] = [
    ("load 0 1", "Load { start: 0, size: 1 }"),
    (
        "load 4294967295 5000",
        "Load { start: 4294967295, size: 5000 }",
    ),
    ("load 4294967296 1", "Usage"),
    ("load 0 5001", "Usage"),
    ("load 0 0", "Usage"),
    ("load 00 1", "Usage"),
    ("load +0 1", "Usage"),
    ("load -- -1 1", "Usage"),
    ("load 0 1 --budget=1", "Usage"),
];

#[test]
fn words_give_their_settings(rt: HostRuntime) -> Result<(), Fail> {
    compare(&rt, rt.alloc(), &PLACES)?;
    compare(&rt, rt.alloc(), &SPELLING)?;
    compare(&rt, rt.alloc(), &HYPHENS)?;
    compare(&rt, rt.alloc(), &FAULTS)?;
    compare(&rt, rt.alloc(), &SIDES)?;
    compare(&rt, rt.alloc(), &PAIRS)?;
    assert_eq!(rt; told(rt.alloc(), &[])?.as_str(), "Usage");
    Ok(())
}

// What a run gives whose schedule has so many letters and then a last one.
fn with_letters(alloc: Global, count: usize, last: &str) -> Result<String, Fail> {
    let mut line = String::from_str(alloc, "run l r --schedule=")?;
    for _ in 0..count {
        line.push_str("L")?;
    }
    line.push_str(last)?;
    told(alloc, &words_of(alloc, line.as_str())?)
}

#[test]
fn ten_thousand_letters(rt: HostRuntime) -> Result<(), Fail> {
    let long = "Schedule { at: 10000 }";
    assert!(rt; with_letters(rt.alloc(), 9_999, "X")?.starts_with("Run { left: \"l\""));
    assert_eq!(rt; with_letters(rt.alloc(), 10_000, "L")?.as_str(), long);
    assert_eq!(rt; with_letters(rt.alloc(), 10_000, "Q")?.as_str(), long);
    assert_eq!(rt;
        with_letters(rt.alloc(), 9_999, "Q")?.as_str(),
        "Schedule { at: 9999 }"
    );
    Ok(())
}
