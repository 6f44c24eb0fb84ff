// The steps on a board, each with a call of its own; `raise` and `lower`, which are alike, too.
use crate::list::{ROOM, Record, UNTOUCHED};

pub fn region_count(record: &Record) -> bool {
    let mut pieceroom = [0u32; ROOM];
    let pieces = record.entries(0, &mut pieceroom);
    let mut tileroom = [0u8; ROOM];
    let tiles = record.entries(3, &mut tileroom);
    let mut out = [UNTOUCHED; 1];
    let number = harness::port_region_count(
        pieces,
        record.size(1),
        record.size(2),
        tiles,
        record.word(4),
        record.size(5),
        record.size(6),
        &mut out,
    );
    record.answered(7, number) && record.holds(8, &out)
}

pub fn scan(record: &Record) -> bool {
    let mut pieceroom = [0u32; ROOM];
    let pieces = record.entries(0, &mut pieceroom);
    let mut weightroom = [0u32; ROOM];
    let weights = record.entries(1, &mut weightroom);
    let mut tileroom = [0u8; ROOM];
    let tiles = record.entries(4, &mut tileroom);
    let mut out = [UNTOUCHED; 3];
    let number = harness::port_scan(
        pieces,
        weights,
        record.size(2),
        record.size(3),
        tiles,
        record.word(5),
        &mut out,
    );
    record.answered(6, number) && record.holds(7, &out)
}

pub fn raise(record: &Record) -> bool {
    let mut weightroom = [0u32; ROOM];
    let weights = record.entries(0, &mut weightroom);
    let number = harness::port_raise_weights(
        weights,
        record.size(1),
        record.size(2),
        record.signed(3),
        record.signed(4),
        record.signed(5),
        record.signed(6),
    );
    record.answered(7, number) && record.holds(8, weights)
}

pub fn lower(record: &Record) -> bool {
    let mut weightroom = [0u32; ROOM];
    let weights = record.entries(0, &mut weightroom);
    let number = harness::port_lower_weights(
        weights,
        record.size(1),
        record.size(2),
        record.signed(3),
        record.signed(4),
        record.signed(5),
        record.signed(6),
    );
    record.answered(7, number) && record.holds(8, weights)
}

pub fn recount(record: &Record) -> bool {
    let mut countroom = [0u32; ROOM];
    let counts = record.entries(0, &mut countroom);
    let mut pieceroom = [0u32; ROOM];
    let pieces = record.entries(1, &mut pieceroom);
    let mut tileroom = [0u8; ROOM];
    let tiles = record.entries(4, &mut tileroom);
    let number = harness::port_recount(
        counts,
        pieces,
        record.size(2),
        record.size(3),
        tiles,
        record.word(5),
        record.signed(6),
        record.signed(7),
        record.signed(8),
        record.signed(9),
    );
    record.answered(10, number) && record.holds(11, counts)
}

pub fn fresh(record: &Record) -> bool {
    let mut pieceroom = [0u32; ROOM];
    let pieces = record.entries(0, &mut pieceroom);
    let mut weightroom = [0u32; ROOM];
    let weights = record.entries(1, &mut weightroom);
    let mut countroom = [0u32; ROOM];
    let counts = record.entries(2, &mut countroom);
    let number = harness::port_fresh(
        pieces,
        weights,
        counts,
        record.size(3),
        record.size(4),
        record.size(5),
    );
    record.answered(6, number)
        && record.holds(7, pieces)
        && record.holds(8, weights)
        && record.holds(9, counts)
}
