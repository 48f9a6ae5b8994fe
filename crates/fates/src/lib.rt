// What became of the cleared biomass, as five lines of text: those that the national line and an explanation end with.
#![tactic(auto)]

ghost use Rattle.std.specs.Prelude.{◌+◌, ◌^◌, ◌≤◌, length};
ghost use Rattle.phrases.specs.Lines.{WrittenIn};
ghost use Rattle.matter.specs.Matter.{MatterMost};
ghost use Rattle.fates.specs.Fates.{matter_text, matter_room};

use matter::Matter;
use phrases::put_lines;
use phrases::text::whole;

pub fn put_matter(m: Matter, out: &mut [u8], at: usize) -> usize
    requires { MatterMost (2 ^ 80) m × (at + matter_room ≤ length out.old) }
    ensures { WrittenIn matter_room (matter_text m) out.old out.new at result }
{
    let values = [
        whole(m.onsite.oxidised.0),
        whole(m.onsite.charcoal.0),
        whole(m.offsite.oxidised.0),
        whole(m.offsite.charcoal.0),
        whole(m.unburned.0),
    ];
    put_lines(
        b"oxidised_onsite charcoal_onsite oxidised_offsite charcoal_offsite unburned ",
        &values,
        out,
        at,
    )
}
