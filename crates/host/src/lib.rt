// Recovery for the instrument's C program: document 01, "Listing, reading, host". The kept image is four bytes a number, low byte first.
#![tactic(auto)]

mod bytes;

ghost use Rattle.std.specs.Prelude.{◌≡◌, ◌/◌, min, length};
ghost use Rattle.rules.specs.Refusal.{refusal_of};
ghost use Rattle.host.specs.Bytes.{host_refusal, host_bytes};

use rules::Refusal;

// No image has more numbers: 4 · 64 + 8 + 2.
const MOST: usize = 266;

// Recovery of the bytes by way of the numbers in front of them: as many as there are, or as an image can have. Nobody reads what is left in image. The four numbers come one by one, as C gives them.
#[tactic(auto, using(crate::proofs::Front::sizes))]
fn recover_by(
    cells: u32,
    threads: u32,
    tries: u32,
    events: u32,
    kept: &mut [u8],
    image: &mut [u32],
) -> Result<(), Refusal>
    requires { length image.old ≡ min (length kept.old / 4) 266 }
    ensures refusal { refusal_of result ≡ host_refusal cells threads tries events kept.old }
    ensures kept { kept.new ≡ host_bytes cells threads tries events kept.old }
{
    bytes::read_numbers(kept, image);
    ring::recover(cells, threads, tries, events, image)?;
    let size = 4 * cells + threads + 2;
    bytes::write_numbers(&image[..size as usize], kept);
    Ok(())
}

// What C calls: 0, and the kept image as a cut would leave it, or the refusal. A number and no Result, for C.
#[unsafe(no_mangle)]
pub extern "C" fn winterbeam_recover(
    cells: u32,
    threads: u32,
    tries: u32,
    events: u32,
    kept: &mut [u8],
) -> u32
    ensures refusal { result ≡ host_refusal cells threads tries events kept.old }
    ensures kept { kept.new ≡ host_bytes cells threads tries events kept.old }
{
    let mut image = [0u32; MOST];
    let count = (kept.len() / 4).min(MOST);
    match recover_by(cells, threads, tries, events, kept, &mut image[..count]) {
        Ok(()) => 0,
        Err(r) => r.into(),
    }
}
