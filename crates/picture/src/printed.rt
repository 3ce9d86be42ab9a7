// The picture of a map, and what the program prints for the bytes that it reads.
ghost use Rattle.layout.specs.Adds.{Adds};
ghost use Rattle.layout.specs.Written.{Front};
ghost use Rattle.picture.specs.Picture.{header_text, picture_text};
ghost use Rattle.picture.specs.Printed.{printed_for};

use crate::raster::put_raster;
use crate::refusal::put_refusal;
use layout::writer::Writer;
use pixels::{lighted, readout};

// Room for every picture.
pub const LONGEST: usize = 16384;

fn put_header(writer: &mut Writer<'_>, lit: u32, time: u32)
    ensures { Adds writer.old writer.new (header_text lit time) }
{
    writer.put_named(b"P4\n# lighted ", u64::from(lit));
    writer.put_named(b" of 118260 pixels, readout ", u64::from(time));
    writer.put_bytes(b" us\n438 270\n");
}

// The picture of a map at the front; the answer is its length. The numbers of a map that is refused are 0 in it.
pub fn picture(map: &[u8], out: &mut [u8; LONGEST]) -> usize
    ensures { Front out.old (picture_text map.now) result out.new }
{
    let lit = lighted(map).unwrap_or(0);
    let time = readout(map).unwrap_or(0);
    let mut writer = Writer::new(out);
    put_header(&mut writer, lit, time);
    put_raster(&mut writer, map);
    writer.len()
}

// The picture of a map, or its refusal in words; the answer is the length.
pub fn printed(map: &[u8], out: &mut [u8; LONGEST]) -> usize
    ensures { Front out.old (printed_for map.now) result out.new }
{
    match lighted(map) {
        Ok(_) => picture(map, out),
        Err(error) => {
            let mut writer = Writer::new(out);
            put_refusal(&mut writer, error.number());
            writer.len()
        }
    }
}
