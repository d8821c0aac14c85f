// Replays a list of register files, and compares the block of each with the Rust module's: how many there were and how many differ, and each difference.
#![tactic(auto)]

use word_text::word_at;

// How many files were replayed, and how many of those differ.
#[derive(Clone, Copy, Default)]
struct Count {
    files: u64,
    differ: u64,
}

fn put(out: &mut [u32], at: u32, word: u32) {
    if let Some(place) = out.get_mut(at as usize) {
        *place = word;
    }
}

// The `count` pairs of a place and a word from `from` on, each word into its place. A word that isn't there counts as 0, where the list ends before the pairs do.
fn put_pairs(out: &mut [u32], words: &[u32], from: usize, count: u32) {
    let (pairs, half) = words[from.min(words.len())..].as_chunks::<2>();
    for [at, word] in &pairs[..pairs.len().min(count as usize)] {
        put(out, *at, *word);
    }
    if pairs.len() < count as usize {
        for at in half {
            put(out, *at, 0);
        }
        if pairs.len() + half.len() < count as usize {
            put(out, 0, 0);
        }
    }
}

fn print_difference(rt: &impl Print, file: u64, at: usize, got: u32, wanted: u32) {
    let _ = println!(rt; "file {file}, word {at} is {got:08x} and not {wanted:08x}");
}

// Whether two blocks differ; prints each word that does.
fn differ(rt: &impl Print, file: u64, block: &[u32; 328], wanted: &[u32; 328]) -> bool {
    let mut found = false;
    for i in 0..328 {
        if block[i] != wanted[i] {
            print_difference(rt, file, i, block[i], wanted[i]);
            found = true;
        }
    }
    found
}

// One file: the number that is due, as the list has it, its registers, and the words of its block that aren't zero. An off file's block stays zero.
// Whether it differs.
fn replay_file(rt: &impl Print, file: u64, number: u32, words: &[u32], n: u32, m: u32) -> bool {
    let mut registers = [0u32; 474];
    let mut block = [0u32; 328];
    let mut wanted = [0u32; 328];
    put_pairs(&mut registers, words, 2, n);
    put_pairs(&mut wanted, words, 3 + 2 * n as usize, m);
    let got = block_abi::block_pack(&registers, &mut block);
    let found = differ(rt, file, &block, &wanted);
    if got != number {
        print_difference(rt, file, 328, got, number);
    }
    found | (got != number)
}

// Every file of the list. Its files are of many lengths, so that no iterator goes over them. Counts stop at the largest, which no list reaches.
fn replay(rt: &impl Print, words: &[u32]) -> Count {
    let mut count = Count::default();
    let mut at = 0;
    while at < words.len() {
        let here = &words[at..];
        let n = word_at(here, 1);
        let after = 2 + 2 * n as usize;
        let m = word_at(here, after);
        count.files = count.files.saturating_add(1);
        let differs = replay_file(rt, count.files, word_at(here, 0), here, n, m);
        count.differ = count.differ.saturating_add(differs as u64);
        at += after + 1 + 2 * m as usize;
    }
    count
}

fn main(rt: HostRuntime) {
    let mut words = [0u32; 16384];
    let size = word_text::load_file(&rt, b"files.txt", &mut words);
    let Count { files, differ } = replay(&rt, &words[..size]);
    let _ = println!(rt; "{files} files replayed, {differ} differ");
}
