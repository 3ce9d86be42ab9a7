// The raster of a raw portable bitmap: the rows of a map, each filled up to whole bytes.
ghost use Rattle.std.specs.Prelude.{◌≡◌, ◌*◌, ◌≤◌, ◌<◌};
ghost use Rattle.layout.specs.Numbers.{bit};
ghost use Rattle.layout.specs.Adds.{Adds};
ghost use Rattle.pixels.specs.Map.{rows};
ghost use Rattle.picture.specs.Raster.{is_shown, eight_from, row_bytes, row_text, raster_text};

use layout::template::byte_at;
use layout::writer::Writer;
use pixels::{COLUMNS, ROWS};

const ROW_BYTES: usize = 55;

// A pixel of a row: 1 where it is lit; 0 past the last column.
fn dot(map: &[u8], row: usize, column: usize) -> u8
    requires { row < rows }
    ensures { result ≡ bit (is_shown map.now row column) }
{
    if COLUMNS <= column {
        return 0;
    }
    let n = row * COLUMNS + column;
    let byte = byte_at(map, n / 8);
    let below = (7 - n % 8) as u8;
    (byte >> below) % 2
}

// Eight pixels of a row, from a column on.
fn eight_from(map: &[u8], row: usize, column: usize) -> u8
    requires row { row < rows }
    requires column { column ≤ 8 * row_bytes }
    ensures { result ≡ eight_from map.now row column }
{
    let mut byte: u8 = 0;
    for j in 0..8 {
        byte = 2 * byte + dot(map, row, column + j);
    }
    byte
}

fn put_row(writer: &mut Writer<'_>, map: &[u8], row: usize)
    requires { row < rows }
    ensures { Adds writer.old writer.new (row_text map.now row) }
{
    for k in 0..ROW_BYTES {
        writer.put_byte(eight_from(map, row, 8 * k));
    }
}

pub fn put_raster(writer: &mut Writer<'_>, map: &[u8])
    ensures { Adds writer.old writer.new (raster_text map.now) }
{
    for row in 0..ROWS {
        put_row(writer, map, row);
    }
}
