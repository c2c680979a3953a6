// Rows worked out by a program of its own, outside the repository.
use crate::scripts;
use std::test::Fail;

// FNV-1a of 64 bits.
fn digest(text: &str) -> u64 {
    let mut digest: u64 = 0xcbf2_9ce4_8422_2325;
    for byte in text.as_bytes() {
        digest = (digest ^ u64::from(*byte)).wrapping_mul(0x100_0000_01b3);
    }
    digest
}

#[test]
fn smallest_pair(rt: HostRuntime) -> Result<(), Fail> {
    let (left, right) = scripts(rt.alloc(), 0, 1)?;
    assert_eq!(rt;
        left.as_str(),
        "desk.list = [];\ndesk.list.push({ id: 1 });\n"
    );
    assert_eq!(rt;
        right.as_str(),
        "let sum = 0;\ndesk.list.forEach((x) => { let v = Array.isArray(x) ? x[0] : x.id; sum += v; });\nprint(sum);\n"
    );
    Ok(())
}

#[test]
fn each_kind_of_line(rt: HostRuntime) -> Result<(), Fail> {
    let (left, _) = scripts(rt.alloc(), 7, 100)?;
    let lines = [
        (0, "desk.list = [];"),
        (1, "desk.list.push({ id: 1 });"),
        (2, "desk.list.push({ get id() { return 2; } });"),
        (3, "desk.list.push({ id: 3 });"),
        (5, "desk.list.push([5]);"),
        (6, "desk.list.push(Object.freeze({ id: 6 }));"),
        (9, "desk.list.push(Object.freeze({ id: 9 }));"),
        (10, "desk.list.push(Object.freeze({ id: 10 }));"),
        (99, "desk.list.push({ get id() { return 99; } });"),
        (100, "desk.list.push({ id: 100 });"),
    ];
    for (place, line) in lines {
        assert_eq!(rt;
            left.as_str().lines().nth(place),
            Some(line),
            "line {place}"
        );
    }
    Ok(())
}

#[test]
fn whole_pairs(rt: HostRuntime) -> Result<(), Fail> {
    // Start, size, bytes of the left script and their digest.
    let rows = [
        (0, 1, 43, 0xbd3b_181e_0896_331f),
        (7, 100, 3_602, 0xd2b3_c587_c5cf_6f8e),
        (2_147_483_647, 3, 144, 0xfba7_5a3f_21f2_85f4),
        (2_147_483_648, 3, 97, 0x1f4b_29e7_021e_a656),
        (1, 5_000, 182_070, 0xa130_9b49_9e7c_b8cd),
        (4_294_967_295, 5_000, 181_136, 0x1822_6a77_76c1_711c),
    ];
    for (start, size, bytes, sum) in rows {
        let (left, right) = scripts(rt.alloc(), start, size)?;
        assert_eq!(rt; left.len(), bytes, "{start} {size}");
        assert_eq!(rt; digest(left.as_str()), sum, "{start} {size}");
        assert_eq!(rt; right.len(), 106);
        assert_eq!(rt; digest(right.as_str()), 0xe417_60f0_bf43_d350);
    }
    Ok(())
}
