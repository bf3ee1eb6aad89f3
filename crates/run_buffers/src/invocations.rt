// How many invocations a run has, and the built-in values of each.

ghost use Rattle.std.specs.Prelude.{◌≡◌, ◌+◌, ◌*◌, ◌<◌, ◌≤◌, ◌^◌, Ok, Err, slice_index};
ghost use Rattle.slang_names.specs.declared.faults.RunCause.TheVariants.{DispatchLimit};
ghost use Rattle.run_buffers.specs.Invocations as spec;
ghost use Rattle.run_buffers.specs.Invocations.{volume, place};

use crate::ids::Ids;
use slang_names::RunCause;
use slang_names::limits::INVOCATIONS;

fn wide_volume(size: [u32; 3]) -> u128
    ensures volume { result ≡ volume size }
    ensures below { result < 2 ^ 96 }
{
    (size[0] as u128) * (size[1] as u128) * (size[2] as u128)
}

/// How many invocations that many groups of a size have along x, y and z, if a run may have so many. A group has at most
/// 1,024 invocations.
pub fn invocation_count(size: [u32; 3], groups: [u32; 3]) -> Result<u32, RunCause>
    requires { volume size ≤ 1024 }
    ensures few { volume groups * volume size ≤ 65536 → result ≡ Ok (volume groups * volume size) }
    ensures many { 65536 < volume groups * volume size → result ≡ Err (DispatchLimit (volume groups * volume size)) }
{
    let product = wide_volume(groups) * wide_volume(size);
    if product > INVOCATIONS as u128 {
        Err(RunCause::DispatchLimit { product })
    } else {
        Ok(product as u32)
    }
}

/// The place with a number, where x counts fastest, then y, then z.
fn place(size: [u32; 3], n: u32) -> [u32; 3]
    requires { n < volume size }
    ensures { result ≡ place size n }
{
    let behind = n / size[0];
    [n % size[0], behind % size[1], behind / size[1]]
}

/// Where an invocation of a group stands among all, along one axis.
fn along(group: u32, size: u32, local: u32) -> u32
    requires { group * size + local < 2 ^ 32 }
    ensures { result ≡ group * size + local }
{
    group * size + local
}

/// The number of a place.
fn number_of(size: [u32; 3], place: [u32; 3]) -> u32
    requires some { 0 < slice_index size 0 }
    requires few { spec.number_of size place < 2 ^ 32 }
    ensures { result ≡ spec.number_of size place }
{
    place[0] + size[0] * (place[1] + size[1] * place[2])
}

fn small_volume(size: [u32; 3]) -> u32
    requires some { 0 < volume size }
    requires few { volume size < 2 ^ 32 }
    ensures { result ≡ volume size }
{
    size[0] * size[1] * size[2]
}

/// The built-in values of the invocation with a number. Invocations are numbered from 0: group after group, x fastest,
/// then y, then z, and in each group in the same order.
pub fn ids_of(size: [u32; 3], groups: [u32; 3], n: u32) -> Ids
    requires there { n < volume groups * volume size }
    requires few { volume groups * volume size ≤ 65536 }
    ensures { result ≡ spec.ids_of size groups n }
{
    let in_group = small_volume(size);
    let group = place(groups, n / in_group);
    let local = place(size, n % in_group);
    Ids {
        group,
        local,
        global: [
            along(group[0], size[0], local[0]),
            along(group[1], size[1], local[1]),
            along(group[2], size[2], local[2]),
        ],
        index: number_of(size, local),
    }
}
