//! Which bytes are a meter file.
use meter_files::{FileRefusal, check_file};

#[test]
fn eight_bytes_with_no_block_pass(rt: HostRuntime) {
    assert_eq!(rt; check_file(&[0, 0, 1, 1, 0, 0, 0, 0]), Ok(()));
}

/// A file of a generator that lists every block with 1 kWh, and one byte more.
fn full_file() -> [u8; 249] {
    let mut bytes = [0u8; 249];
    bytes[0] = 48;
    bytes[2] = 1;
    bytes[3] = 1;
    for (number, k) in bytes[8..56].iter_mut().zip(0..48) {
        *number = k;
    }
    let (energies, _) = bytes[56..248].as_chunks_mut::<4>();
    for energy in energies.iter_mut() {
        energy[0] = 1;
    }
    bytes
}

#[test]
fn all_blocks_take_248_bytes(rt: HostRuntime) {
    let bytes = full_file();
    assert_eq!(rt; check_file(&bytes[0..248]), Ok(()));
    assert_eq!(rt; check_file(&bytes[0..247]), Err(FileRefusal::Length(247)));
    assert_eq!(rt; check_file(&bytes), Err(FileRefusal::Length(249)));
}

#[test]
fn a_length_that_is_not_the_counts_is_refused(rt: HostRuntime) {
    assert_eq!(rt; check_file(&[]), Err(FileRefusal::Length(0)));
    assert_eq!(rt;
        check_file(&[0, 0, 1, 1, 0, 0, 0]),
        Err(FileRefusal::Length(7))
    );
    assert_eq!(rt;
        check_file(&[0, 0, 1, 1, 0, 0, 0, 0, 0]),
        Err(FileRefusal::Length(9))
    );
    assert_eq!(rt;
        check_file(&[1, 0, 1, 1, 0, 0, 0, 0]),
        Err(FileRefusal::Length(8))
    );
}

#[test]
fn a_header_field_out_of_range_is_named_by_its_offset(rt: HostRuntime) {
    let cases = [
        ([49, 0, 1, 1, 0, 0, 0, 0], 0),
        ([0, 1, 1, 1, 0, 0, 0, 0], 0),
        ([0, 0, 0, 1, 0, 0, 0, 0], 2),
        ([0, 0, 3, 1, 0, 0, 0, 0], 2),
        ([0, 0, 1, 0, 0, 0, 0, 0], 3),
        ([0, 0, 1, 33, 0, 0, 0, 0], 3),
        ([0, 0, 2, 9, 0, 0, 0, 0], 3),
        ([0, 0, 1, 1, 129, 132, 30, 0], 4),
    ];
    for (bytes, offset) in cases.iter() {
        assert_eq!(rt; check_file(bytes), Err(FileRefusal::Header(*offset)));
    }
}

#[test]
fn a_header_field_at_its_limit_passes(rt: HostRuntime) {
    assert_eq!(rt; check_file(&[0, 0, 1, 32, 0, 0, 0, 0]), Ok(()));
    assert_eq!(rt; check_file(&[0, 0, 2, 8, 0, 0, 0, 0]), Ok(()));
    assert_eq!(rt; check_file(&[0, 0, 2, 1, 128, 132, 30, 0]), Ok(()));
}

#[test]
fn a_block_number_rises_and_is_at_most_47(rt: HostRuntime) {
    assert_eq!(rt;
        check_file(&[1, 0, 1, 1, 0, 0, 0, 0, 47, 1, 0, 0, 0]),
        Ok(())
    );
    assert_eq!(rt;
        check_file(&[1, 0, 1, 1, 0, 0, 0, 0, 48, 1, 0, 0, 0]),
        Err(FileRefusal::BlockNumber(8))
    );
    assert_eq!(rt;
        check_file(&[2, 0, 1, 1, 0, 0, 0, 0, 5, 5, 1, 0, 0, 0, 1, 0, 0, 0]),
        Err(FileRefusal::BlockNumber(9))
    );
    assert_eq!(rt;
        check_file(&[2, 0, 1, 1, 0, 0, 0, 0, 5, 4, 1, 0, 0, 0, 1, 0, 0, 0]),
        Err(FileRefusal::BlockNumber(9))
    );
}

#[test]
fn an_energy_is_1_to_20_000_000(rt: HostRuntime) {
    assert_eq!(rt;
        check_file(&[1, 0, 1, 1, 0, 0, 0, 0, 0, 0, 45, 49, 1]),
        Ok(())
    );
    assert_eq!(rt;
        check_file(&[1, 0, 1, 1, 0, 0, 0, 0, 0, 1, 45, 49, 1]),
        Err(FileRefusal::Energy(9))
    );
    assert_eq!(rt;
        check_file(&[1, 0, 1, 1, 0, 0, 0, 0, 0, 0, 0, 0, 0]),
        Err(FileRefusal::Energy(9))
    );
    assert_eq!(rt;
        check_file(&[2, 0, 1, 1, 0, 0, 0, 0, 0, 1, 1, 0, 0, 0, 0, 0, 0, 0]),
        Err(FileRefusal::Energy(14))
    );
}

#[test]
fn of_several_wrong_fields_the_first_check_names_its_own(rt: HostRuntime) {
    // the header comes before the length that follows from the count
    assert_eq!(rt;
        check_file(&[0, 0, 7, 1, 0, 0, 0, 0, 0]),
        Err(FileRefusal::Header(2))
    );
    // the count, the kind, the party and the demand, in the order of their offsets
    assert_eq!(rt;
        check_file(&[49, 0, 7, 99, 255, 255, 255, 255]),
        Err(FileRefusal::Header(0))
    );
    assert_eq!(rt;
        check_file(&[0, 0, 7, 99, 255, 255, 255, 255]),
        Err(FileRefusal::Header(2))
    );
    assert_eq!(rt;
        check_file(&[0, 0, 2, 99, 255, 255, 255, 255]),
        Err(FileRefusal::Header(3))
    );
    // every block number before any energy
    assert_eq!(rt;
        check_file(&[2, 0, 1, 1, 0, 0, 0, 0, 3, 3, 0, 0, 0, 0, 0, 0, 0, 0]),
        Err(FileRefusal::BlockNumber(9))
    );
}
