//! Rows in more than two chunks: what is read, found and left, by values that were counted by hand.
use roam_stored_rows::{StoreFault, StoredRows, Way, Wrap};
use std::alloc::Global;

// How many rows, how they end, and their text: rows 10 to 709. Row 11 goes on into row 12, row 500 has styles, and rows 501 to 503 are a line
// that a wide character wrapped early.
const ROWS: [(u32, Wrap, &str); 9] = [
    (1, Wrap::Ends, "first"),
    (1, Wrap::Full, "a needle in two ro"),
    (1, Wrap::Ends, "ws Behind"),
    (487, Wrap::Ends, "filler"),
    (
        1,
        Wrap::Ends,
        "\u{1b}[1;31mred\u{1b}[0m and pl\u{1b}[4mai\u{1b}[0mn",
    ),
    (1, Wrap::Early, "\u{c9}t\u{e9} "),
    (1, Wrap::Full, "\u{65e5}\u{672c}"),
    (1, Wrap::Ends, "\u{8a9e}\u{212a}"),
    (206, Wrap::Ends, ""),
];

fn many(alloc: Global) -> Result<StoredRows, StoreFault> {
    let mut rows = StoredRows::new(alloc, 10);
    for (count, wrap, text) in ROWS.iter() {
        for _ in 0..*count {
            rows.push(*wrap, text.as_bytes())?;
        }
    }
    Ok(rows)
}

// A read: from where, how many rows and bytes at most, and then the number of the first row, how many rows, and their lines.
const READS: [(u64, u64, u64, u64, u64, &str); 5] = [
    (11, 2, 1000, 11, 2, "+a needle in two ro\n ws Behind\n"),
    (0, 9, 27, 10, 2, " first\n+a needle in two ro\n"),
    (11, 9, 1, 11, 1, "+a needle in two ro\n"),
    (900, 9, 1000, 710, 0, ""),
    (501, 1, 1000, 501, 1, "+\u{c9}t\u{e9} \n"),
];

fn reads(alloc: Global) -> Result<bool, StoreFault> {
    let rows = many(alloc)?;
    let mut out = Vec::new(alloc);
    let mut all = true;
    for (from, most_rows, most_bytes, first, count, lines) in READS.iter() {
        out.clear();
        let page = rows.read(*from, *most_rows, *most_bytes, &mut out)?;
        all = all
            && page.first == *first
            && page.count == *count
            && out.as_slice() == lines.as_bytes();
    }
    Ok(all)
}

// A search: from which number up to which, in which direction and for what, and the row that is found, or 0. The folding of U+00C9 is U+00E9,
// and of U+212A, the Kelvin sign, the letter k (CaseFolding.txt).
const FINDS: [(u64, u64, Way, &str, u64); 16] = [
    (0, 900, Way::On, "rows behind", 11),
    (0, 900, Way::Back, "filler", 499),
    (12, 900, Way::On, "needle", 0),
    (0, 900, Way::On, "BEHIND", 0),
    (0, 900, Way::On, "Behind", 12),
    (0, 900, Way::On, "red and plain", 500),
    (0, 500, Way::Back, "red", 0),
    (0, 900, Way::On, "", 0),
    (0, 900, Way::On, "\u{e9}t\u{e9}", 501),
    (0, 900, Way::On, "\u{c9}t\u{e9}", 501),
    (0, 900, Way::On, "\u{c9}T", 0),
    (0, 900, Way::Back, " \u{65e5}\u{672c}\u{8a9e}", 501),
    (0, 900, Way::Back, "k", 503),
    (0, 900, Way::Back, "\u{212a}", 503),
    (0, 900, Way::Back, "K", 0),
    (0, 900, Way::Back, "\u{fffd}", 0),
];

fn finds(alloc: Global) -> Result<bool, StoreFault> {
    let rows = many(alloc)?;
    let mut all = true;
    for (low, high, way, text, row) in FINDS.iter() {
        let found = rows.find(*low, *high, *way, text.as_bytes())?;
        all = all && found.unwrap_or(0) == *row;
    }
    Ok(all)
}

fn refuses(alloc: Global) -> Result<bool, StoreFault> {
    let rows = many(alloc)?;
    let long = [b'a'; 1025];
    let refused = matches!(
        rows.find(0, 900, Way::On, &long),
        Err(StoreFault::TextTooLong)
    );
    Ok(refused && rows.find(0, 900, Way::On, &long[..1024])?.is_none())
}

fn shrinks(alloc: Global) -> Result<bool, StoreFault> {
    let mut rows = many(alloc)?;
    rows.withdraw(210);
    let withdrawn = rows.first() == 10 && rows.end() == 500;
    rows.push(Wrap::Ends, b"again")?;
    let again = rows.find(0, 900, Way::Back, b"again")? == Some(500);
    rows.limit(300, 1_000_000);
    let fewer = rows.first() == 201 && rows.end() == 501 && rows.bytes() == 299 * 8 + 7;
    rows.limit(300, 15);
    let least = rows.first() == 499 && rows.bytes() == 15;
    rows.clear();
    let none = rows.first() == 501 && rows.end() == 501 && rows.bytes() == 0;
    rows.push(Wrap::Full, b"new")?;
    rows.withdraw(9);
    Ok(withdrawn && again && fewer && least && none && rows.first() == 501 && rows.end() == 501)
}

#[test]
fn rows_are_read_found_and_dropped(rt: HostRuntime) {
    assert!(rt; matches!(reads(rt.alloc()), Ok(true)));
    assert!(rt; matches!(finds(rt.alloc()), Ok(true)));
    assert!(rt; matches!(refuses(rt.alloc()), Ok(true)));
    assert!(rt; matches!(shrinks(rt.alloc()), Ok(true)));
}
