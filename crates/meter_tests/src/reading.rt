//! Reading and writing a meter file.
use meter_files::{FILE_LIMIT, FileRefusal, read_file, write_file};
use metering::{Kind, Reading, ShortBuffer};

/// Generator 1 with 100 kW, and 20, 30 and 20 kWh in blocks 2, 12 and 38.
const STATION: [u8; 23] = [
    3, 0, 1, 1, 100, 0, 0, 0, 2, 12, 38, 20, 0, 0, 0, 30, 0, 0, 0, 20, 0, 0, 0,
];

#[test]
fn a_file_gives_its_reading(rt: HostRuntime) {
    let mut reading = Reading::empty();
    assert_eq!(rt; read_file(&STATION, &mut reading), Ok(()));
    assert_eq!(rt; reading.kind, Kind::Generator);
    assert_eq!(rt; reading.number, 1);
    assert_eq!(rt; reading.demand, 100);
    assert_eq!(rt; reading.energy(12), 30);
    assert_eq!(rt; reading.energy(13), 0);
    assert_eq!(rt; reading.listed(), 3);
    assert_eq!(rt; reading.total(), 70);
}

#[test]
fn a_refused_file_leaves_the_reading(rt: HostRuntime) {
    let mut reading = Reading::empty();
    assert_eq!(rt; read_file(&STATION, &mut reading), Ok(()));
    assert_eq!(rt;
        read_file(&STATION[0..22], &mut reading),
        Err(FileRefusal::Length(22))
    );
    assert_eq!(rt; reading.demand, 100);
    assert_eq!(rt; reading.total(), 70);
}

#[test]
fn a_reading_is_written_as_its_file(rt: HostRuntime) {
    let mut reading = Reading::empty();
    assert_eq!(rt; read_file(&STATION, &mut reading), Ok(()));
    let mut buffer = [7u8; FILE_LIMIT];
    assert_eq!(rt; write_file(&reading, &mut buffer), Ok(23));
    assert!(rt; &buffer[0..23] == STATION.as_slice());
    assert_eq!(rt; buffer[23], 7);
}

#[test]
fn a_buffer_that_is_one_byte_short_is_left_alone(rt: HostRuntime) {
    let mut reading = Reading::empty();
    assert_eq!(rt; read_file(&STATION, &mut reading), Ok(()));
    let mut buffer = [7u8; 22];
    assert_eq!(rt; write_file(&reading, &mut buffer), Err(ShortBuffer));
    assert_eq!(rt; buffer[0], 7);
}
