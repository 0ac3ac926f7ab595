//! What is printed of a performed list of calls: one line for each, numbered over the list.
#![tactic(auto)]

pub mod line;
pub mod printer;
pub mod subject;
pub mod verb;

pub use line::{FileLine, Line};
pub use printer::Printer;
pub use subject::Subject;
pub use verb::verb_of;

#[cfg(test)]
mod tests {
    use super::*;
    use agreements::{Cause, Fault};
    use history::{Answer, Call, Named, Spending};
    use journal::Verb;
    use ledger::Refusal;
    use meter_files::FileRefusal;
    use metering::Reading;
    use std::test::Fail;
    use tariffs::Row;

    // Calls with their answers, and the line of each.
    fn performed() -> [(Call, Answer, &'static str); 13] {
        let meter = Call::Meter(Reading::empty());
        let close = Call::closing(1, 1);
        let fault = Fault {
            cause: Cause::Contract,
            layer: 0,
        };
        let release = Spending::Release;
        [
            (
                Call::Year(Row::of(&[])),
                Answer::Accepted,
                "1 year accepted",
            ),
            (
                meter,
                Answer::Metered(5_500_000),
                "2 meter accepted place 1 dues 5500000",
            ),
            (
                Call::Deliver(Reading::empty()),
                Answer::Accepted,
                "3 deliver accepted licensee 1",
            ),
            (
                meter,
                Answer::Refused(Refusal::Agreement(fault)),
                "4 meter refused 10 cause 1 layer 0",
            ),
            (
                close,
                Answer::Refused(Refusal::NoQuantity(3)),
                "5 close refused 17 head 3",
            ),
            (
                Call::Draw(2),
                Answer::Refused(Refusal::UnderACent),
                "6 draw refused 21",
            ),
            (
                Call::Draw(2),
                Answer::Drawn(2, 550),
                "7 draw accepted order 1 place 2 cents 550",
            ),
            (
                Call::Present(release, Named::Drawn(1)),
                Answer::Paid(2, 550),
                "8 release accepted order 1",
            ),
            (
                Call::Draw(1),
                Answer::Drawn(1, 7),
                "9 draw accepted order 2 place 1 cents 7",
            ),
            (
                Call::Present(Spending::Hold, Named::Drawn(2)),
                Answer::Accepted,
                "10 hold accepted order 2",
            ),
            (
                Call::Present(release, Named::Drawn(3)),
                Answer::Absent,
                "11 release absent order 3",
            ),
            (
                Call::Present(release, Named::Other(1)),
                Answer::Returned,
                "12 release refused 22",
            ),
            (
                Call::Present(release, Named::Other(4)),
                Answer::Absent,
                "13 release absent other 4",
            ),
        ]
    }

    #[test]
    fn each_call_has_its_line(rt: HostRuntime) -> Result<(), Fail> {
        let mut printer = Printer::new();
        for (call, answer, text) in performed().iter() {
            let line = printer.line(call, answer);
            assert_eq!(rt; line.to_string(rt.alloc())?.as_str(), *text);
        }
        Ok(())
    }

    #[test]
    fn a_refused_file_has_its_line(rt: HostRuntime) -> Result<(), Fail> {
        let mut printer = Printer::new();
        let line = printer.file_line(Verb::Meter, FileRefusal::BlockNumber(9));
        assert_eq!(rt;
            line.to_string(rt.alloc())?.as_str(),
            "1 meter refused 3 detail 9"
        );
        Ok(())
    }
}
