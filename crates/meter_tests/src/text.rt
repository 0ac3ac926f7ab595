//! The text of figures.
use figures_text::{ExpectedLine, TextFault, parse_figures};
use std::test::Fail;

/// The line that is wrong, and what is expected there.
fn fault(text: &str) -> Option<(usize, ExpectedLine)> {
    let TextFault { line, expected } = parse_figures(text.as_bytes()).err()?;
    Some((line, expected))
}

#[test]
fn comments_blank_lines_and_wide_gaps_say_nothing(rt: HostRuntime) -> Result<(), Fail> {
    let text = "# a station\n\n  generator\t7 # its place\r\ndemand 100\n 0  5\n47 6";
    let Ok(figures) = parse_figures(text.as_bytes()) else {
        return Err(Fail::new("refused"));
    };
    assert_eq!(rt; figures.kind, 1);
    assert_eq!(rt; figures.number, 7);
    assert_eq!(rt; figures.demand, 100);
    assert_eq!(rt; figures.blocks[0], 5);
    assert_eq!(rt; figures.blocks[47], 6);
    Ok(())
}

#[test]
fn a_kind_may_be_a_number_and_a_large_figure_counts_as_the_largest(
    rt: HostRuntime,
) -> Result<(), Fail> {
    let Ok(figures) = parse_figures(b"2 99999999999\ndemand 4294967296") else {
        return Err(Fail::new("refused"));
    };
    assert_eq!(rt; figures.kind, 2);
    assert_eq!(rt; figures.number, u32::MAX);
    assert_eq!(rt; figures.demand, u32::MAX);
    Ok(())
}

#[test]
fn the_first_wrong_line_is_named_with_what_is_expected(rt: HostRuntime) {
    assert_eq!(rt; fault(""), Some((1, ExpectedLine::Party)));
    assert_eq!(rt; fault("generator\n"), Some((1, ExpectedLine::Party)));
    assert_eq!(rt; fault("wind 1\n"), Some((1, ExpectedLine::Party)));
    assert_eq!(rt; fault("generator 1\n\n"), Some((3, ExpectedLine::Demand)));
    assert_eq!(rt;
        fault("generator 1\n2 20\n"),
        Some((2, ExpectedLine::Demand))
    );
    assert_eq!(rt;
        fault("generator 1\ndemand -1\n"),
        Some((2, ExpectedLine::Demand))
    );
    assert_eq!(rt;
        fault("generator 1\ndemand 1\n48 1\n"),
        Some((3, ExpectedLine::Block))
    );
    assert_eq!(rt;
        fault("generator 1\ndemand 1\n2 1\n2 1\n"),
        Some((4, ExpectedLine::Block))
    );
    assert_eq!(rt;
        fault("generator 1\ndemand 1\n2 1 kWh\n"),
        Some((3, ExpectedLine::Block))
    );
    assert_eq!(rt; fault("licensee 1\ndemand 1\n"), None);
}
