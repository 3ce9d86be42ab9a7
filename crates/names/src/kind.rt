// The name of a kind.
ghost use Rattle.layout.specs.Adds.{Adds};
ghost use Rattle.names.specs.Kind.{kind_name, bare_name};

use layout::writer::Writer;
use words::kinds::KINDS;

#[tactic(auto, unfolding(layout::specs::Numbers::ascii, crate::specs::Kind::kind_template, crate::specs::Kind::kind_name))]
pub fn put_kind(writer: &mut Writer<'_>, kind: u8)
    ensures { Adds writer.old writer.new (kind_name kind) }
{
    let values = [u64::from(kind)];
    writer.put_template(
        b"{NOP        |START      |HK         |STOP       |IR DETECTOR|IR WIN MODE|VDETCOM M  |VDETCOM L  \
        |VDETADJ M  |VDETADJ L  |IR DELAY   |IR EXPO    |WIN X1     |WIN Y1     |WIN X2     |WIN Y2     \
        |CCD DELAY  |CCD EXPO   |CCD LAMP   |IR LAMP    |SHUTTER    |ANNEALING  |SIN M      |SIN L      \
        |COS M      |COS L      |SWITCH     |COVER      |unknown    }  ",
        &values,
        &[],
    );
}

// The name by itself.
#[tactic(auto, unfolding(layout::specs::Numbers::ascii, crate::specs::Kind::name_template, crate::specs::Kind::bare_name, words::specs::Kinds::kinds))]
pub fn put_name(writer: &mut Writer<'_>, kind: u8)
    ensures { Adds writer.old writer.new (bare_name kind) }
{
    let values = [u64::from(kind.min(KINDS))];
    writer.put_template(
        b"{NOP|START|HK|STOP|IR DETECTOR|IR WIN MODE|VDETCOM M|VDETCOM L\
        |VDETADJ M|VDETADJ L|IR DELAY|IR EXPO|WIN X1|WIN Y1|WIN X2|WIN Y2\
        |CCD DELAY|CCD EXPO|CCD LAMP|IR LAMP|SHUTTER|ANNEALING|SIN M|SIN L\
        |COS M|COS L|SWITCH|COVER|unknown}",
        &values,
        &[],
    );
}
