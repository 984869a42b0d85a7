// Building the image of a route list into lent memory, which is all the memory that it uses.
#![tactic(auto)]

ghost use Rattle.std.specs.Prelude.{◌≡◌};
ghost use Rattle.image_build.specs.Build.{left, built_of, build_image};

use fill::Source;
use image_count::count_nodes;
use image_nodes::NODE_SIZE;
use image_numbers::{is_stride, slots_of};
use refusals::{Fault, Refusal};
use routes::{ROUTE_SIZE, check_list};

mod fill;

// The nodes and the ports that a build has written.
#[derive(Clone, Copy, Debug, PartialEq, Eq)]
pub struct Written {
    pub nodes: u32,
    pub ports: u32,
}

// What C is told of a build: the refusal's number and place, both 0 where it is done, and the nodes and ports written.
#[derive(Clone, Copy)]
pub struct Built {
    pub number: u32,
    pub place: u32,
    pub nodes: u32,
    pub ports: u32,
}

impl From<Result<Written, Refusal>> for Built {
    ghost from_gives = { λ x built. built ≡ built_of x };

    fn from(x: Result<Written, Refusal>) -> Built {
        match x {
            Ok(written) => Built {
                number: 0,
                place: 0,
                nodes: written.nodes,
                ports: written.ports,
            },
            Err(r) => Built {
                number: u32::from(r.fault),
                place: r.place,
                nodes: 0,
                ports: 0,
            },
        }
    }
}

// The image of a list, written into the nodes and the ports lent. Refuses 12 at place 0, then as the check of the list does, then 9
// at place 0 where the nodes or the ports do not fit. The nodes are counted first, so that a refusal writes nothing.
pub fn build(
    stride: u32,
    list: &[u32],
    nodes: &mut [u32],
    ports: &mut [u16],
) -> Result<Written, Refusal>
    ensures { left (built_of result) nodes.new ports.new ≡ build_image 32 stride list.now nodes.old ports.old }
{
    if !is_stride(stride) {
        return Err(Fault::WrongStride.at(0));
    }
    check_list(list)?;
    let n = list.len() / ROUTE_SIZE;
    let slots = slots_of(stride);
    let count = count_nodes(list, stride);
    let leaves = count * (slots as usize - 1) + 1;
    if nodes.len() < count * NODE_SIZE {
        return Err(Fault::NoRoom.at(0));
    }
    if ports.len() < leaves {
        return Err(Fault::NoRoom.at(0));
    }
    let source = Source {
        list,
        stride,
        slots,
    };
    source.write_image(n, nodes, ports);
    Ok(Written {
        nodes: count as u32,
        ports: leaves as u32,
    })
}
