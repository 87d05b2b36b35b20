//! What the planes of frames of some depths keep a sample as.

ghost use Rattle.std.specs.Prelude.{◌≡◌, Some};
ghost use Rattle.std.specs.Option.{option_copied};
ghost use Rattle.picture_table.specs.KeptPictures.{KeepInBytes, KeepInWords};
ghost use Rattle.job_results.specs.ResultPlanes.{Keeps};

use job_results::AnyPlanes;
use planes::FramePlanes;
use vp9_types::Sample;

/// What planes of some depths keep a sample as.
pub trait PlaneSample: Sample {
    ghost use Rattle.std.specs.Prelude.{ℕ};
    ghost use Rattle.vp9_types.specs.declared.shape.Depth.{Depth};
    ghost use Rattle.job_results.specs.numbered_frames.Coded.{CodedFrame};
    ghost use Rattle.job_results.specs.JobResults.{IsAnyFiltered, IsAnyStrip, IsFilteredAs, IsStripAs};
    ghost use Rattle.job_results.specs.declared.any_planes.AnyPlanes.{AnyPlanes as Planes};
    ghost use Rattle.planes.specs.declared.frame_planes.FramePlanes.{FramePlanes as Kept};

    /// Whether those of this depth do.
    ghost keeps: { Depth → Type 0 };

    /// Planes, whatever they keep a sample as.
    ghost any: { Kept Self → Planes };

    /// The planes as ones that keep samples so, if they do.
    fn planes_of(planes: &AnyPlanes) -> Option<&FramePlanes<Self>>
        ensures kept { (depth : Depth) → Keeps depth planes.now → keeps depth → (kept : Kept Self) × (option_copied result ≡ Some kept) × (planes.now ≡ any kept) }
        ensures strip { (c : CodedFrame) (k r : ℕ) (kept : Kept Self) → option_copied result ≡ Some kept → IsAnyStrip c k r planes.now → IsStripAs c k r kept }
        ensures filtered { (c : CodedFrame) (r : ℕ) (kept : Kept Self) → option_copied result ≡ Some kept → IsAnyFiltered c r planes.now → IsFilteredAs c r kept };
}

impl PlaneSample for u8 {
    ghost use Rattle.job_results.specs.declared.any_planes.AnyPlanes.TheVariants.{Bytes};

    ghost keeps = { λ depth. KeepInBytes depth };

    ghost any = { λ planes. Bytes planes };

    fn planes_of(planes: &AnyPlanes) -> Option<&FramePlanes<u8>> {
        match planes {
            AnyPlanes::Bytes(planes) => Some(planes),
            AnyPlanes::Words(_) => None,
        }
    }
}

impl PlaneSample for u16 {
    ghost use Rattle.job_results.specs.declared.any_planes.AnyPlanes.TheVariants.{Words};

    ghost keeps = { λ depth. KeepInWords depth };

    ghost any = { λ planes. Words planes };

    fn planes_of(planes: &AnyPlanes) -> Option<&FramePlanes<u16>> {
        match planes {
            AnyPlanes::Words(planes) => Some(planes),
            AnyPlanes::Bytes(_) => None,
        }
    }
}
