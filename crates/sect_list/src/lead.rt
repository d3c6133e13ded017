ghost use Rattle.std.specs.Prelude.{◌≡◌, ◌<◌, length, position, slice_index_or, slice_set};
ghost use Rattle.mo_types.specs.declared.out_section.OutSection.{OutSection};
ghost use Rattle.tlv_plan.specs.Template as template;
ghost use Rattle.sect_list.specs.OutSections as spec;

use mo_types::OutSection;
use tlv_plan::{greatest_align, is_thread_local};

// The first thread-local section.
fn first_of(sections: &[OutSection]) -> Option<usize>
    ensures { result ≡ position template.is_thread_local sections.now }
{
    sections.iter().position(|section| is_thread_local(section))
}

// Gives the section at a place an alignment.
fn raise(sections: &mut Vec<OutSection>, at: usize, align: u8)
    requires { at < length sections.old.items }
    ensures { (d : OutSection) → sections.new.items ≡ slice_set sections.old.items at (record (slice_index_or sections.old.items at d) { align = align }) }
{
    sections[at].align = align;
}

// The first thread-local section with the greatest alignment of them all.
#[tactic(auto, using(crate::proofs::Ordering::leads))]
pub(crate) fn led(sections: Vec<OutSection>) -> Vec<OutSection>
    ensures { result.items ≡ spec.led sections.items }
{
    let mut sections = sections;
    let greatest = greatest_align(sections.as_slice());
    match first_of(sections.as_slice()) {
        Some(first) => raise(&mut sections, first, greatest),
        None => {}
    }
    sections
}
