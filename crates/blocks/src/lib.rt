// Block totals: how many frames a block has, the sum of its values and that of their squares, frame by frame, and the greatest of
// them. Totals of neighbours add, and a block's row value and error follow from its kind and its totals alone.
#![tactic(auto)]

ghost use Rattle.std.specs.Prelude.{◌≡◌, ◌≤◌};
ghost use Rattle.model.specs.Calls.{kind_number};
ghost use Rattle.model.specs.Blocks.{totals_of, add, empty, nearest, value_for};
ghost use Rattle.blocks.specs.Meaning.{totals_in, error_from};
ghost use Rattle.model.specs.Room.{Room, Block, most_frames};
ghost use Rattle.model.specs.Questions.{most_value};

use model::Kind;

#[derive(Clone, Copy)]
pub struct Totals {
    pub frames: u64,
    pub sum: u64,
    pub squares: u64,
    pub greatest: u64,
}

impl Totals {
    // The totals of a block with no segment.
    pub const EMPTY: Totals = Totals {
        frames: 0,
        sum: 0,
        squares: 0,
        greatest: 0,
    };

    // The totals of a block with no segment, as a call: its promise says what the constant holds.
    #[tactic(auto, unfolding(crate::specs::Meaning::totals_in, model::specs::Blocks::empty))]
    pub fn of_no_segment() -> Totals
        ensures { totals_in result ≡ empty }
    {
        Totals::EMPTY
    }

    // The totals of one segment.
    #[tactic(auto, using(theory::proofs::Bounds::mul_le), unfolding(crate::specs::Meaning::totals_in, model::specs::Blocks::totals_of))]
    pub fn make(frames: u64, value: u64) -> Totals
        requires { (frames ≤ most_frames) × (value ≤ most_value) }
        ensures { totals_in result ≡ totals_of frames value }
    {
        Totals {
            frames,
            sum: frames * value,
            squares: frames * (value * value),
            greatest: value,
        }
    }

    // The totals of two neighbours together.
    #[tactic(auto, unfolding(crate::specs::Meaning::totals_in, model::specs::Blocks::add))]
    // No `impl Add`: it asks for room, and the operator's trait asks for nothing.
    pub fn add(self, other: Totals) -> Totals
        requires { Room (add (totals_in self) (totals_in other)) }
        ensures { totals_in result ≡ add (totals_in self) (totals_in other) }
    {
        Totals {
            frames: self.frames + other.frames,
            sum: self.sum + other.sum,
            squares: self.squares + other.squares,
            greatest: self.greatest.max(other.greatest),
        }
    }

    // The whole number nearest to the mean, the upper one at a half; 0 for no frames.
    #[tactic(auto, using(crate::proofs::Bounds::nearest_none, crate::proofs::Bounds::nearest_by_division), unfolding(crate::specs::Meaning::totals_in))]
    fn nearest_mean(self) -> u64
        requires { Room (totals_in self) }
        ensures { result ≡ nearest self.sum self.frames }
    {
        if self.frames == 0 {
            return 0;
        }
        (2 * self.sum + self.frames) / (2 * self.frames)
    }

    // The row value: for the greatest load the greatest value, for every other kind the nearest mean.
    pub fn row_value(self, kind: Kind) -> u64
        requires { Room (totals_in self) }
        ensures { result ≡ value_for (kind_number kind) (totals_in self) }
    {
        match kind {
            Kind::Greatest => self.greatest,
            _ => self.nearest_mean(),
        }
    }

    // The squared error of the row value.
    pub fn error(self, kind: Kind) -> u64
        requires { Block (totals_in self) }
        ensures { result ≡ error_from (kind_number kind) (totals_in self) }
    {
        let value = self.row_value(kind);
        self.squares + value * value * self.frames - 2 * (value * self.sum)
    }
}
