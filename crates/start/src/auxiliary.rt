// auxiliary.rs, `Aux::init`: a channel's buffers at the start.
ghost use Rattle.std.specs.Prelude.{◌≡◌, ◌*◌, length};
ghost use Rattle.start.specs.declared.coef.Reorder.{Reorder};
ghost use Rattle.start.specs.Coef.{image_of, px_count};
ghost use Rattle.start.specs.AsCoef.{as_coef};
ghost use Rattle.start.specs.Auxiliary.{init_pixels, aux_init};

use crate::coef::{Coef, Reorder};
use fold::copy;

// The channel's pixels at full sides. Image and scratch have as many values as the own plane.
fn init_pixels_into(
    plane: &mut [f32],
    image: &mut [f32],
    scratch: &mut [f32],
    coef: &Coef,
    reorder: Reorder,
)
    requires { (length plane.old ≡ coef.now.w * coef.now.h) × (length image.old ≡ px_count coef.now.own) × (length scratch.old ≡ px_count coef.now.own) }
    ensures { plane.new ≡ init_pixels (image_of reorder (as_coef coef.now)) coef.now.own coef.now.w coef.now.h }
{
    let o = coef.own;
    coef.scalar().image_of(image, scratch, reorder);
    plane.fill(0.0);
    utils::auxiliary::upsample_pixels(
        image,
        o.width,
        o.height,
        o.horizontal,
        o.vertical,
        coef.w,
        coef.h,
        plane,
    );
}

/// Start of one channel, on its part of each buffer. Across and down are scratch for the image
/// before they are 0. At own width 8 both orders of the image give the same buffers.
// Rules out: the other order of the image; values left over in a buffer.
pub fn start(
    plane: &mut [f32],
    prior: &mut [f32],
    gradient: &mut [f32],
    across: &mut [f32],
    down: &mut [f32],
    saved: &mut [f32],
    coef: &Coef,
    reorder: Reorder,
)
    requires { (length plane.old ≡ coef.now.w * coef.now.h) × (length prior.old ≡ coef.now.w * coef.now.h)
        × (length gradient.old ≡ coef.now.w * coef.now.h) × (length across.old ≡ coef.now.w * coef.now.h)
        × (length down.old ≡ coef.now.w * coef.now.h) × (length saved.old ≡ coef.now.w * coef.now.h) }
    ensures buffers { record {
      plane = plane.new;
      prior = prior.new;
      gradient = gradient.new;
      across = across.new;
      down = down.new;
      saved = saved.new;
    }
        ≡ aux_init reorder (as_coef coef.now) coef.now.w coef.now.h }
    ensures narrow { coef.now.own.width ≡ 8 → (other : Reorder)
        → aux_init reorder (as_coef coef.now) coef.now.w coef.now.h
        ≡ aux_init other (as_coef coef.now) coef.now.w coef.now.h }
{
    let n = coef.px_count();
    init_pixels_into(plane, &mut across[..n], &mut down[..n], coef, reorder);
    copy(plane, prior);
    gradient.fill(0.0);
    across.fill(0.0);
    down.fill(0.0);
    saved.fill(0.0);
    coef.scalar().init_dct_target_into(saved);
}
