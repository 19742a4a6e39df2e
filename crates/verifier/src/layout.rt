//! A program that may be walked.
ghost use Rattle.std.specs.Prelude.{◌≡◌, None};
ghost use Rattle.bpf_image.specs.Program.{units};
ghost use Rattle.verifier.specs.Listing.{listing_of};
ghost use Rattle.verifier.specs.Verdict.{first_fault, decoding_fault, flow_fault};
ghost use Rattle.verifier.specs.Tables.{HasEnds};

use bpf_image::Image;
use bpf_isa::Instruction;

/// A program that decodes and flows, with what starts at each pc and where the function ends that each pc lies in.
#[derive(Clone, Copy)]
pub(crate) struct Layout<'a> {
    pub image: &'a Image,
    pub listing: &'a [Option<Instruction>],
    pub ends: &'a [u16],
    ghost listed: { listing.now ≡ listing_of image.now (units image.now) },
    ghost decodes: { first_fault (decoding_fault image.now) (units image.now) ≡ None },
    ghost flows: { first_fault (flow_fault image.now) (units image.now) ≡ None },
    ghost ended: { HasEnds image.now ends.now },
}
