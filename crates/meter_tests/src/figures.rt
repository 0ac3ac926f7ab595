//! Making a reading from figures.
use meter_files::FileRefusal;
use metering::{
    BLOCKS, Figures, FiguresRefusal, HeaderRefusal, Reading, ShortBuffer, make_reading,
};

/// What making a reading of these figures answers, block 47 having this energy.
fn made(kind: u32, number: u32, demand: u32, last: u32) -> Result<(), FiguresRefusal> {
    let mut blocks = [0; BLOCKS];
    blocks[47] = last;
    let figures = Figures {
        kind,
        number,
        demand,
        blocks,
    };
    make_reading(&figures, &mut Reading::empty())
}

#[test]
fn figures_at_their_limits_make_a_reading(rt: HostRuntime) {
    assert_eq!(rt; made(1, 1, 0, 0), Ok(()));
    assert_eq!(rt; made(1, 32, 2_000_000, 20_000_000), Ok(()));
    assert_eq!(rt; made(2, 8, 2_000_000, 1), Ok(()));
}

#[test]
fn figures_past_their_limits_are_refused(rt: HostRuntime) {
    assert_eq!(rt; made(0, 1, 0, 0), Err(FiguresRefusal::Header(2)));
    assert_eq!(rt; made(3, 1, 0, 0), Err(FiguresRefusal::Header(2)));
    assert_eq!(rt; made(1, 0, 0, 0), Err(FiguresRefusal::Header(3)));
    assert_eq!(rt; made(1, 33, 0, 0), Err(FiguresRefusal::Header(3)));
    assert_eq!(rt; made(2, 9, 0, 0), Err(FiguresRefusal::Header(3)));
    assert_eq!(rt; made(1, 257, 0, 0), Err(FiguresRefusal::Header(3)));
    assert_eq!(rt; made(1, 1, 2_000_001, 0), Err(FiguresRefusal::Header(4)));
    assert_eq!(rt; made(1, 1, 0, 20_000_001), Err(FiguresRefusal::Block(47)));
}

#[test]
fn of_several_wrong_figures_the_first_is_named(rt: HostRuntime) {
    assert_eq!(rt;
        made(9, 99, 9_000_000, 90_000_000),
        Err(FiguresRefusal::Header(2))
    );
    assert_eq!(rt;
        made(2, 99, 9_000_000, 90_000_000),
        Err(FiguresRefusal::Header(3))
    );
    assert_eq!(rt;
        made(2, 8, 9_000_000, 90_000_000),
        Err(FiguresRefusal::Header(4))
    );
}

#[test]
fn a_refusal_has_its_number_and_detail(rt: HostRuntime) {
    assert_eq!(rt; FileRefusal::Length(7).number(), 1);
    assert_eq!(rt; FileRefusal::Header(3).number(), 2);
    assert_eq!(rt; FileRefusal::BlockNumber(9).number(), 3);
    assert_eq!(rt; FileRefusal::Energy(12).number(), 4);
    assert_eq!(rt; HeaderRefusal { offset: 3 }.number(), 2);
    assert_eq!(rt; FiguresRefusal::Header(3).number(), 2);
    assert_eq!(rt; FiguresRefusal::Block(12).number(), 4);
    assert_eq!(rt; ShortBuffer.number(), 5);
    assert_eq!(rt; FileRefusal::Energy(12).detail(), 12);
    assert_eq!(rt; HeaderRefusal { offset: 3 }.detail(), 3);
    assert_eq!(rt; FiguresRefusal::Block(12).detail(), 12);
}
