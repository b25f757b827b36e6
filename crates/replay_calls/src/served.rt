// A list of calls made by the proved call for lists, and a digest of what it leaves: its answer, the list's answers, the record and the six buffers.
use float::bits::to_bits;
use record::lent::{Buffers, Given};
use record::{Channel, Run};
use words::{with, with_all};

fn with_channel(digest: u32, c: Channel) -> u32 {
    with_all(
        digest,
        &[
            c.width,
            c.height,
            c.across,
            c.down,
            to_bits(c.weight),
            c.held,
            c.position,
            u32::from(c.mark),
            c.clipped,
        ],
        |n| n,
    )
}

fn with_run(digest: u32, run: Run) -> u32 {
    let d = with_all(
        digest,
        &[
            run.w,
            run.h,
            run.n,
            to_bits(run.smoothing),
            run.reorder as u32,
            run.count,
        ],
        |n| n,
    );
    run.channels.iter().fold(d, |d, &c| with_channel(d, c))
}

// The digest of what the calls of the two lists leave, made on this run with what it is lent.
pub fn digest(
    mut run: Run,
    jobs: &[u8],
    channels: &[u32],
    answers: &mut [u8],
    given: Given,
    lent: &mut Buffers,
) -> u32 {
    let answer = serve::serve(&mut run, jobs, channels, answers, given, lent);
    let answered = with(0, u32::from(serve::answer_byte(answer)));
    let listed = with_all(answered, answers, u32::from);
    let ran = with_run(listed, run);
    let a = with_all(ran, lent.plane, to_bits);
    let b = with_all(a, lent.prior, to_bits);
    let c = with_all(b, lent.gradient, to_bits);
    let d = with_all(c, lent.across, to_bits);
    let e = with_all(d, lent.down, to_bits);
    with_all(e, lent.saved, to_bits)
}
