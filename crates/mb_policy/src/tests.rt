use super::*;
use mb_base::{Side, StrId, Value};
use mb_world::{Rule, RuleKind};
use std::alloc::AllocError;
use std::test::Fail;

// Why a file is refused, or `None` where it is accepted.
fn refusal(alloc: Global, file: &str) -> Option<PolicyFault> {
    let mut texts = Texts::new(alloc);
    match read(alloc, file.as_bytes(), &mut texts) {
        Ok(_) => None,
        Err(fault) => Some(fault),
    }
}

const fn field(row: u32) -> Option<PolicyFault> {
    Some(PolicyFault::Refused(PolicyKind::Field { row }))
}

const fn conflict(first: u32, second: u32) -> Option<PolicyFault> {
    Some(PolicyFault::Refused(PolicyKind::Conflict { first, second }))
}

const NOT_TOML: Option<PolicyFault> = Some(PolicyFault::Refused(PolicyKind::NotToml));

#[test]
fn the_top_level_is_judged_first(rt: HostRuntime) -> Result<(), Fail> {
    let rows = [
        ("", field(0)),
        ("version = ", NOT_TOML),
        ("version = 1", None),
        ("\u{FEFF}version = 1", None),
        ("version = 2\nrule = []", None),
        ("version = 3", field(0)),
        ("version = 1\nrule = 5", field(0)),
        ("version = 1\nrule = [5]", field(0)),
        ("version = 1\nother = 5\n[[rule]]\nlabel = 1", field(0)),
    ];
    for (file, expected) in rows {
        assert_eq!(rt; refusal(rt.alloc(), file), expected, "{file}");
    }
    Ok(())
}

// What becomes of one row of a file of that version.
fn one_row(rt: &HostRuntime, version: u8, row: &str) -> Result<Option<PolicyFault>, Fail> {
    let file = format!(in rt.alloc(); "version = {version}\nrule = [{{ label = \"A\", {row} }}]")?;
    Ok(refusal(rt.alloc(), &file))
}

#[test]
fn a_row_has_the_fields_of_its_kind(rt: HostRuntime) -> Result<(), Fail> {
    let rows = [
        (1, "kind = \"revoke\"", None),
        (1, "kind = \"other\"", field(1)),
        (1, "kind = \"read-only\", key = \"k\"", field(1)),
        (1, "kind = \"hide\"", field(1)),
        (1, "kind = \"hide\", key = \"k\", value = 1", field(1)),
        (1, "kind = \"hide\", key = \"\\u0000\"", None),
        (1, "kind = \"hide\", key = \"k\", owner = \"A\"", field(1)),
        (2, "kind = \"hide\", key = \"k\", owner = \"A\"", None),
        (
            2,
            "kind = \"revoke\", owner = \"H\", viewer = \"H\"",
            field(1),
        ),
        (2, "kind = \"revoke\", owner = \"I\"", field(1)),
        (1, "kind = \"substitute\", key = \"k\", value = true", None),
        (1, "kind = \"substitute\", key = \"k\", value = \"\"", None),
        (
            1,
            "kind = \"substitute\", key = \"k\", value = 9007199254740991",
            None,
        ),
        (
            1,
            "kind = \"substitute\", key = \"k\", value = 9007199254740992",
            field(1),
        ),
        (
            1,
            "kind = \"substitute\", key = \"k\", value = -9007199254740991",
            None,
        ),
        (
            1,
            "kind = \"substitute\", key = \"k\", value = -9007199254740992",
            field(1),
        ),
        (
            1,
            "kind = \"substitute\", key = \"k\", value = 1979-05-27",
            field(1),
        ),
        (
            1,
            "kind = \"substitute\", key = \"k\", value = 1.5",
            field(1),
        ),
    ];
    for (version, row, expected) in rows {
        assert_eq!(rt; one_row(&rt, version, row)?, expected, "{row}");
    }
    Ok(())
}

// A file of version 2 with these rows.
fn rows_of(alloc: Global, rows: &[&str]) -> Result<String, AllocError> {
    let mut file = String::from_str(alloc, "version = 2\n")?;
    for row in rows {
        file.push_str("[[rule]]\n")?;
        file.push_str(row)?;
        file.push_str("\n")?;
    }
    Ok(file)
}

#[test]
fn rows_conflict_where_both_mean_a_pair_of_sides(rt: HostRuntime) -> Result<(), Fail> {
    let everyone = "label = \"A\"\nkind = \"hide\"\nkey = \"k\"";
    let viewer = "label = \"A\"\nkind = \"substitute\"\nkey = \"k\"\nvalue = 1\nviewer = \"B\"";
    let other = "label = \"A\"\nkind = \"hide\"\nkey = \"k\"\nviewer = \"C\"";
    let elsewhere = "label = \"B\"\nkind = \"hide\"\nkey = \"k\"";
    let locked = "label = \"A\"\nkind = \"read-only\"";
    let rows: [(&[&str], Option<PolicyFault>); 5] = [
        (&[everyone, viewer], conflict(1, 2)),
        (&[viewer, other, elsewhere], None),
        (&[elsewhere, viewer, other, everyone], conflict(2, 4)),
        (&[locked, locked, everyone], None),
        (&[everyone, everyone, "kind = 5"], field(3)),
    ];
    for (given, expected) in rows {
        let file = rows_of(rt.alloc(), given)?;
        assert_eq!(rt; refusal(rt.alloc(), &file), expected);
    }
    Ok(())
}

#[test]
fn there_are_at_most_a_thousand_rows(rt: HostRuntime) -> Result<(), Fail> {
    let rows = vec![in rt.alloc(); "label = \"A\"\nkind = \"revoke\""; 1001]?;
    let file = rows_of(rt.alloc(), &rows)?;
    assert_eq!(rt; refusal(rt.alloc(), &file), field(1001));
    let file = rows_of(rt.alloc(), &rows[1..])?;
    assert_eq!(rt; refusal(rt.alloc(), &file), None);
    Ok(())
}

// A file whose one row substitutes a text of so many units.
fn long_text(alloc: Global, units: usize) -> Result<String, AllocError> {
    let mut file = String::from_str(
        alloc,
        "version = 1\nrule = [{ label = \"A\", kind = \"substitute\", key = \"k\", value = \"",
    )?;
    for _ in 0..units {
        file.push_str("a")?;
    }
    file.push_str("\" }]")?;
    Ok(file)
}

#[test]
fn a_text_has_at_most_a_million_units(rt: HostRuntime) -> Result<(), Fail> {
    for (units, expected) in [(1_048_576, None), (1_048_577, field(1))] {
        let file = long_text(rt.alloc(), units)?;
        assert_eq!(rt; refusal(rt.alloc(), &file), expected);
    }
    Ok(())
}

#[test]
fn rules_come_with_their_texts(rt: HostRuntime) -> Result<(), Fail> {
    let mut texts = Texts::new(rt.alloc());
    let file =
        "version = 2\nrule = [{label = \"A\", kind = \"substitute\", key = \"k\", value = \"A\", owner = \"B\"}]";
    let rules = read(rt.alloc(), file.as_bytes(), &mut texts)?;
    let expected = Rule {
        label: StrId(0),
        kind: RuleKind::Substitute(StrId(1), Value::Text(StrId(0))),
        owner: Some(Side(1)),
        viewer: None,
    };
    assert_eq!(rt; rules.rows().len(), 1);
    assert_eq!(rt; rules.rows().first(), Some(&expected));
    assert_eq!(rt; texts.find(&[0x6B]), Some(StrId(1)));
    Ok(())
}
