//! The text of a closed month's sheet: a line for the month, for each head, for each licensee that is billed, and for the margin.
#![tactic(auto)]

mod lines;
pub mod text;

pub use text::{TEXT_LIMIT, text_of, write_sheet};

#[cfg(test)]
mod tests {
    use super::*;
    use accounts::{Billed, Sheet};
    use metering::ShortBuffer;
    use methodology::{Methodology, TwoIntervals};

    // A sheet of two intervals, with one negative balance, a line for licensee 8 and a loss as margin.
    fn example() -> Sheet {
        let mut sheet = Sheet::empty(TwoIntervals::shape());
        sheet.month = 12;
        sheet.heads[2].balance = -1_710;
        sheet.licensees[7] = Some(Billed {
            bill: 618,
            fraction: 7_630,
        });
        sheet.margin = -5;
        sheet
    }

    const TEXT: &str =
        "month 12\nG 0 0 0 0\nT 0 0 0 0\nB 0 0 -1710 0\nS 0 0 0 0\nE1 0 0 0 0\nE2 0 0 0 0\nlicensee 8 618 7630\nmargin -5\n";

    #[test]
    fn a_text_stands_at_the_start_of_the_buffer(rt: HostRuntime) {
        let mut buffer = [b'.'; TEXT_LIMIT];
        let size = TEXT.len();
        assert_eq!(rt; write_sheet(&example(), &mut buffer), Ok(size));
        assert!(rt; buffer.starts_with(TEXT.as_bytes()));
        assert_eq!(rt; buffer[size], b'.');
    }

    #[test]
    fn a_short_buffer_is_left_as_it_was(rt: HostRuntime) {
        let mut buffer = [b'.'; 4];
        assert_eq!(rt; write_sheet(&example(), &mut buffer), Err(ShortBuffer));
        assert_eq!(rt; buffer, [b'.'; 4]);
    }
}
