// Compares root and floor with published vectors: for each file of data/ how many were compared and how many differ, and each difference.
#![tactic(auto)]

use binary32::whole_parts::floor;
use root::root;
use std::rt::Files;

// How many vectors were compared, and how many of those differ.
#[derive(Clone, Copy, Default)]
struct Count {
    compared: u64,
    differ: u64,
}

// Every pair of words: an input, and its result. Counts stop at the largest, which no file reaches.
fn compare<F: Fn(f32) -> f32 + Drop>(rt: &impl Print, words: &[u32], operation: F) -> Count
    requires { F.IsAlwaysCallable operation }
{
    let mut count = Count::default();
    for [input, wanted] in words.as_chunks::<2>().0 {
        let got = binary32::word_of(operation(binary32::float_of(*input)));
        count.compared = count.compared.saturating_add(1);
        if got != *wanted {
            count.differ = count.differ.saturating_add(1);
            let _ = println!(rt; "  {input:08x} gives {got:08x} and not {wanted:08x}");
        }
    }
    count
}

// Reads one file and prints its line.
fn compare_file<F: Fn(f32) -> f32 + Drop>(
    rt: &(impl Files + Print + Eprint),
    name: &[u8],
    operation: F,
)
    requires { F.IsAlwaysCallable operation }
{
    let mut words = [0u32; 8192];
    let size = word_text::load_file(rt, name, &mut words);
    let Count { compared, differ } = compare(rt, &words[..size], operation);
    let _ = rt.write_all(name);
    let _ = println!(rt; ": {compared} compared, {differ} differ");
}

fn main(rt: HostRuntime) {
    compare_file(&rt, b"sqrt-binary32.txt", root);
    compare_file(&rt, b"testfloat-sqrt-binary32.txt", root);
    compare_file(&rt, b"floor-binary32.txt", floor);
    compare_file(&rt, b"testfloat-floor-binary32.txt", floor);
}
