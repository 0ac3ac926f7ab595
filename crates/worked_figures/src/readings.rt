//! What meters measured in the worked month.
ghost use Rattle.metering.specs.declared.kind.Kind.TheVariants.{Generator, Licensee};
ghost use Rattle.worked_figures.specs.FirstCalls.{FirstSent, FirstTaken, Measured};

use metering::{BLOCKS, Figures, FiguresRefusal, Kind, Reading, make_reading};

/// One block in each interval of three: 01:00 is off-peak, 06:00 day and 19:00 peak.
const NIGHT: usize = 2;

const MORNING: usize = 12;

const EVENING: usize = 38;

/// What a meter measured: kW, and kWh by night, in the morning and in the evening.
pub fn measured(
    kind: Kind,
    number: u8,
    demand: u32,
    energies: [u32; 3],
) -> Result<Reading, FiguresRefusal>
    ensures { Measured kind number demand energies result }
{
    let mut blocks = [0; BLOCKS];
    blocks[NIGHT] = energies[0];
    blocks[MORNING] = energies[1];
    blocks[EVENING] = energies[2];
    let figures = Figures {
        kind: u32::from(kind),
        number: u32::from(number),
        demand,
        blocks,
    };
    let mut reading = Reading::empty();
    make_reading(&figures, &mut reading)?;
    Ok(reading)
}

/// The generator's month.
pub fn sent() -> Reading
    ensures { FirstSent result }
{
    measured(Kind::Generator, 1, 100, [20, 30, 20]).unwrap()
}

/// The licensee's month.
pub fn taken() -> Reading
    ensures { FirstTaken result }
{
    measured(Kind::Licensee, 1, 90, [18, 28, 19]).unwrap()
}
