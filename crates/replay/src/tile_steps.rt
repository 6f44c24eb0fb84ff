// The extraction of tiles.
use crate::list::{ROOM, Record, UNTOUCHED};

pub fn extract(record: &Record) -> bool {
    let mut sampleroom = [0u8; ROOM];
    let sample = record.entries(0, &mut sampleroom);
    let mut storeroom = [0u8; ROOM];
    let store = record.entries(6, &mut storeroom);
    let mut out = [UNTOUCHED; 1];
    let number = harness_tiles::port_extract_tiles(
        sample,
        record.size(1),
        record.size(2),
        record.word(3),
        record.flag(4),
        record.flag(5),
        store,
        &mut out,
    );
    record.answered(7, number) && record.holds(8, &out) && record.holds(9, store)
}
