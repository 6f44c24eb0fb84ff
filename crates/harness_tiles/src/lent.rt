// What crosses beside what crates boundary_slots and boundary have: boxes and tiles from numbers and slices, and values of several entries
// into slices. An entry past the end of a slice is not stored; a refused call stores none.
ghost use Rattle.std.specs.Prelude.{◌≡◌, get_or};
ghost use Rattle.rules.specs.Promises.{before, after};
ghost use Rattle.harness_tiles.specs.Lent.{box_of, nine_of, put_from, pads_stored, TellsExtension, TellsMembers};

use boundary::written;
use boundary_slots::{digit, put, put_offset, world_at};
use rules::{BoundingBox, ColourList, ExtensionInfo, Pads, Refusal};

pub fn box_at(minrow: i32, mincol: i32, maxrow: i32, maxcol: i32) -> BoundingBox
    ensures { result ≡ box_of minrow mincol maxrow maxcol }
{
    BoundingBox {
        min: world_at(minrow, mincol),
        max: world_at(maxrow, maxcol),
    }
}

fn byte_at(bytes: &[u8], at: usize) -> u8
    ensures { result ≡ get_or bytes.now at 0 }
{
    bytes.get(at).copied().unwrap_or(0)
}

pub fn tile_of(bytes: &[u8]) -> [u8; rules::TILE_CELLS]
    ensures { result ≡ nine_of bytes.now }
{
    let mut tile = [0u8; rules::TILE_CELLS];
    for (k, cell) in tile.iter_mut().enumerate() {
        *cell = byte_at(bytes, k);
    }
    tile
}

pub fn put_bytes(out: &mut [u8], bytes: &[u8])
    ensures { after out ≡ put_from 0 bytes.now (before out) }
{
    for (k, byte) in bytes.iter().enumerate() {
        put(out, k, *byte);
    }
}

fn put_pads(out: &mut [u64], pads: Pads)
    ensures { after out ≡ pads_stored pads (before out) }
{
    put(out, 0, pads.left as u64);
    put(out, 1, pads.right as u64);
    put(out, 2, pads.top as u64);
    put(out, 3, pads.bottom as u64);
}

pub fn extension_given(
    answer: Result<ExtensionInfo, Refusal>,
    pads: &mut [u64],
    offset: &mut [i32],
    needed: &mut [u32],
) -> u32
    ensures { TellsExtension answer pads offset needed result }
{
    if let Ok(info) = answer {
        put_pads(pads, info.pads);
        put_offset(offset, info.offset);
        put(needed, 0, digit(info.needed));
    }
    written(answer)
}

pub fn colours_given(
    answer: Result<ColourList, Refusal>,
    colours: &mut [u8],
    len: &mut [u64],
) -> u32
    ensures { TellsMembers answer colours len result }
{
    if let Ok(list) = answer {
        put_bytes(colours, &list.colours);
        put(len, 0, list.len as u64);
    }
    written(answer)
}
