// The image: its build, its lookup, the lookups with the stride a constant, and many lookups in one call.
ghost use Rattle.std.specs.Prelude.{◌≡◌};
ghost use Rattle.promise.specs.Over.{outcome};
ghost use Rattle.image_rules.specs.Lookup.{lookup_words};
ghost use Rattle.image_lookup.specs.Many.{many_words};
ghost use Rattle.image_build.specs.Build.{build_image};
ghost use Rattle.maftehon.specs.Reply.{imaged, replied_image};
ghost use Rattle.refusals.specs.Reply.{reply, looked, replied};

use crate::replies::built;
use image_build::Built;
use refusals::Answer;
use refusals::found::Found;
use refusals::reply::{counted, looked};

pub fn mft_image_build(
    stride: u32,
    list: &[u32],
    nodes: &mut [u32],
    ports: &mut [u16],
    answer: &mut [u32; 3],
) -> u32
    ensures { imaged (reply result answer.new) nodes.new ports.new ≡ replied_image (build_image 32 stride list.now nodes.old ports.old) }
{
    built(
        Built::from(image_build::build(stride, list, nodes, ports)),
        answer,
    )
}

pub fn mft_image_lookup(
    stride: u32,
    nodes: &[u32],
    ports: &[u16],
    address: u32,
    answer: &mut [u32; 3],
) -> u32
    ensures { reply result answer.new ≡ looked (lookup_words 32 stride nodes.now ports.now address) }
{
    looked(
        Found::from(image_lookup::lookup(stride, nodes, ports, address)),
        answer,
    )
}

pub fn mft_image_lookup_1(nodes: &[u32], ports: &[u16], address: u32, answer: &mut [u32; 3]) -> u32
    ensures { reply result answer.new ≡ looked (lookup_words 32 1 nodes.now ports.now address) }
{
    looked(
        Found::from(image_lookup::lookup_1(nodes, ports, address)),
        answer,
    )
}

pub fn mft_image_lookup_2(nodes: &[u32], ports: &[u16], address: u32, answer: &mut [u32; 3]) -> u32
    ensures { reply result answer.new ≡ looked (lookup_words 32 2 nodes.now ports.now address) }
{
    looked(
        Found::from(image_lookup::lookup_2(nodes, ports, address)),
        answer,
    )
}

pub fn mft_image_lookup_4(nodes: &[u32], ports: &[u16], address: u32, answer: &mut [u32; 3]) -> u32
    ensures { reply result answer.new ≡ looked (lookup_words 32 4 nodes.now ports.now address) }
{
    looked(
        Found::from(image_lookup::lookup_4(nodes, ports, address)),
        answer,
    )
}

pub fn mft_image_lookup_many(
    stride: u32,
    nodes: &[u32],
    ports: &[u16],
    addresses: &[u32],
    out: &mut [u16],
    answer: &mut [u32; 2],
) -> u32
    ensures { outcome (reply result answer.new) out.new ≡ replied (many_words 32 stride nodes.now ports.now addresses.now out.old) }
{
    counted(
        Answer::from(image_lookup::many::lookup_many(stride, nodes, ports, addresses, out)),
        answer,
    )
}
