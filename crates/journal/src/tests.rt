//! Journals as an operator writes them.
use super::*;
use banks::Bank;
use std::alloc::{AllocError, Global};
use std::test::Fail;

/// What is said of a text.
fn told(heap: Global, text: &str) -> Result<String, AllocError> {
    match parse_journal(heap, text.as_bytes()) {
        Ok(_) => format!(in heap; "read"),
        Err(Unread::At(fault)) => format!(in heap; "{fault}"),
        Err(Unread::NoMemory) => format!(in heap; "no memory"),
    }
}

#[test]
fn a_fault_says_what_was_expected(rt: HostRuntime) -> Result<(), Fail> {
    let cases = [
        (
            "# nothing",
            "2: expected 'market three serial NUMBER' or 'market two serial NUMBER'",
        ),
        (
            "market four serial 7",
            "1: expected 'market three serial NUMBER' or 'market two serial NUMBER'",
        ),
        ("market two", "1: expected 'serial'"),
        ("market two serial", "1: 'serial' wants 1 figure, found 0"),
        (
            "market two serial 18446744073709551616",
            "1: 'serial' wants figures of at most 18446744073709551615",
        ),
        (
            "market three serial 7\nmarket two serial 7",
            "2: expected 'station', 'year', 'tariff', 'meter', 'deliver', 'close', 'draw', 'release' or 'hold'",
        ),
        (
            "market three serial 7\ndraw 1\nstation quota",
            "3: expected 'year', 'tariff', 'meter', 'deliver', 'close', 'draw', 'release' or 'hold'",
        ),
        (
            "market three serial 7\nstation retainer",
            "2: expected 'two-part' or 'quota'",
        ),
        (
            "market three serial 7\nstation two-part contracted 2000001 capacity 0 energy 0",
            "2: a two-part agreement has 'contracted' at most 2000000, 'capacity' at most 50000000000, 'energy' at most 100000000",
        ),
        (
            "market three serial 7\nstation quota kwh 0 first 0 second 100000001",
            "2: a quota has 'kwh' at most 1000000000000000, 'first' and 'second' at most 100000000",
        ),
        (
            "market three serial 7\n\n# a year has two revenues\nyear 1000 100 10",
            "4: 'year' wants 2 figures, found 3",
        ),
        (
            "market three serial 7\ndraw 256",
            "2: 'draw' wants figures of at most 255",
        ),
        (
            "market three serial 7\nmeter # january",
            "2: expected a file name",
        ),
        (
            "market three serial 7\ndeliver a.mtr b.mtr",
            "2: expected the end of the line",
        ),
    ];
    for (text, message) in cases {
        assert_eq!(rt; told(rt.alloc(), text)?.as_str(), message);
    }
    Ok(())
}

#[test]
fn a_market_has_32_places_at_most(rt: HostRuntime) -> Result<(), Fail> {
    let mut text = String::new(rt.alloc());
    text.push_str("market two serial 1\n")?;
    for _ in 0..33 {
        text.push_str("station quota kwh 0 first 0 second 0\n")?;
    }
    let said = told(rt.alloc(), text.as_str())?;
    assert_eq!(rt; said.as_str(), "34: expected at most 32 stations");
    Ok(())
}

const FIRST_MONTH: &str = "market three serial 7                # or two
station two-part contracted 100 capacity 20000 energy 50000
station quota kwh 25 first 60000 second 40000 index 1050000 index 990000
year 1000 100
tariff costs 1080 486 49 peaks 540 energy 2100 sent 420 delivered 168 114 108 losses 40000 0 0 coefficients 1000 1200 1000 interest 0
meter january/station-1.mtr
deliver january/licensee-1.mtr

close 1 1                            # readings and deliveries that the month must have
draw 1
release 1                            # the order of the first accepted draw
hold 2
";

#[test]
fn a_month_is_read(rt: HostRuntime) {
    let Ok(journal) = parse_journal(rt.alloc(), FIRST_MONTH.as_bytes()) else {
        assert!(rt; false);
        return;
    };
    assert_eq!(rt; journal.serial, 7);
    assert_eq!(rt; journal.stations.places(), 2);
    assert_eq!(rt; journal.entries.len(), 8);
    for entry in &journal.entries {
        match entry.request {
            Request::Year(revenues) => assert_eq!(rt; revenues.figures[1], 100),
            Request::Tariff(filing) => assert_eq!(rt; filing.coefficients.figures[1], 1_200),
            Request::Meter(name) => assert_eq!(rt; name.len(), 21),
            Request::Deliver(name) => assert!(rt; name == b"january/licensee-1.mtr".as_slice()),
            Request::Close {
                readings,
                deliveries,
            } => assert_eq!(rt; (entry.line, readings, deliveries), (9, 1, 1)),
            Request::Draw(place) => assert_eq!(rt; place, 1),
            Request::Release(order) => assert_eq!(rt; order, 1),
            Request::Hold(order) => assert_eq!(rt; order, 2),
        }
    }
}
