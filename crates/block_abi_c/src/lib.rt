// The exports of `block_abi` for the host's comparisons: C's names for its two calls, with the same promises. A crate of its own, since a
// crate is a library or a static library, and the program `block_replay` uses the library.
#![tactic(auto)]

ghost use Rattle.std.specs.Prelude.{◌≡◌};
ghost use Rattle.block.specs.Block.{packing as packing_as};
ghost use Rattle.block_abi.specs.PackFile.{pack_file};
ghost use Rattle.block_abi.specs.FormNumber.{form_number};

// The block of a register file's lighting.
#[unsafe(no_mangle)]
pub extern "C" fn block_pack(file: &[u32], words: &mut [u32]) -> u32
    ensures { packing_as result words.new ≡ pack_file file.now words.old }
{
    block_abi::block_pack(file, words)
}

// What the check finds of a block.
#[unsafe(no_mangle)]
pub extern "C" fn block_form(words: &[u32]) -> u32
    ensures { result ≡ form_number words.now }
{
    block_abi::block_form(words)
}
