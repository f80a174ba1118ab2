// Positions along a curve, and the numbers of the vertices there.
ghost use Rattle.std.specs.Prelude.{◌≡◌, ◌+◌, ◌<◌, ◌≤◌, if◌then◌else◌, MatchOption, true, false};
ghost use Rattle.levels.specs.Finer.{level as level_of};
ghost use Rattle.curve.specs.Made.{coarsest, level_at, LevelOf};
ghost use Rattle.curve.specs.Positions.{number_at, position_of, after, Positioned, within};

use crate::curve::Curve;
use crate::level::CurveLevel;

impl Curve {
    // How many edges the coarsest level has.
    fn base_edges(&self) -> usize
        ensures { result ≡ (coarsest self.now).edges }
    {
        self.points - self.extra()
    }

    // How many more vertices than edges each level has.
    fn extra(&self) -> usize
        ensures { result ≡ (if self.now.closed then 0 else 1) }
    {
        if self.closed { 0 } else { 1 }
    }

    // The level of this number, if the curve has one.
    pub(crate) fn at(&self, level: usize) -> Option<CurveLevel<'_>>
        ensures { MatchOption result (self.now.levels < level) (LevelOf self.now level) }
    {
        if level > self.levels {
            return None;
        }
        Some(CurveLevel { curve: self, level })
    }

    // The level of this number, if it is refined further: topology is asked of such levels only.
    pub(crate) fn refined(&self, level: usize) -> Option<CurveLevel<'_>>
        ensures { MatchOption result (self.now.levels ≤ level) (λ here. LevelOf self.now level here × (level < self.now.levels)) }
    {
        self.at(level).filter(|here| here.level < self.levels)
    }

    // The level of this number, if it has a vertex of such a number.
    fn holding(&self, level: usize, number: usize) -> Option<CurveLevel<'_>>
        ensures { MatchOption result (within self.now level number ≡ false) (λ here. LevelOf self.now level here × (within self.now level number ≡ true)) }
    {
        self.at(level).filter(|here| number < here.vertices())
    }

    // The number of the vertex at `position` along `level`; 0 past the level's vertices or the finest level.
    #[tactic(auto, using(crate::proofs::Levels::positioned))]
    pub fn number_at(&self, level: usize, position: usize) -> usize
        ensures value { result ≡ (if within self.now level position then number_at (coarsest self.now) level position else 0) }
        ensures law { Positioned self.now }
    {
        self.holding(level, position)
            .map_or(0, |here| here.numbered(position))
    }

    // The position of vertex `number` along `level`; 0 past the level's vertices or the finest level.
    #[tactic(auto, using(crate::proofs::Levels::positioned))]
    pub fn position_of(&self, level: usize, number: usize) -> usize
        ensures value { result ≡ (if within self.now level number then position_of (coarsest self.now) level number else 0) }
        ensures law { Positioned self.now }
    {
        self.holding(level, number)
            .map_or(0, |here| here.placed(number))
    }
}

impl CurveLevel<'_> {
    // A coarser level of the same curve, or this one.
    fn coarser(self, level: usize) -> Self
        requires { level ≤ self.level }
        ensures { level_at result ≡ level_of (coarsest self.entry.curve.now) level }
    {
        CurveLevel {
            curve: self.curve,
            level,
        }
    }

    pub(crate) fn edges(self) -> usize
        ensures value { result ≡ (level_at self.entry).edges }
        ensures some { 1 ≤ result }
        ensures few { result ≤ 32768 }
    {
        self.curve.base_edges() << self.level
    }

    pub(crate) fn vertices(self) -> usize
        ensures value { result ≡ (level_at self.entry).vertices }
        ensures few { result ≤ 32768 }
    {
        self.edges() + self.curve.extra()
    }

    // The position after `position`: a closed curve goes on at 0 after its last edge.
    pub(crate) fn next_position(self, position: usize) -> usize
        requires { position ≤ 32768 }
        ensures { result ≡ after self.entry.curve.now.closed (level_at self.entry).edges position }
    {
        let next = position + 1;
        if self.curve.closed && next == self.edges() {
            0
        } else {
            next
        }
    }

    // The vertex at `position`. The zeros at the end of a position say how many levels ago its vertex was born.
    pub(crate) fn numbered(self, position: usize) -> usize
        ensures { result ≡ number_at (coarsest self.entry.curve.now) self.entry.level position }
    {
        let zeros = position.trailing_zeros() as usize;
        if zeros >= self.level {
            return position >> self.level;
        }
        self.coarser(self.level - zeros - 1).vertices() + (position >> (zeros + 1))
    }

    // The level whose edge has the vertex `number`: those of the edges of level b have the numbers from V of level b up to V of the next.
    fn edge_level(self, number: usize) -> usize
        requires late { self.curve.now.points ≤ number }
        requires there { number < (level_at self).vertices }
        ensures before { result < self.entry.level }
        ensures low { (level_of (coarsest self.entry.curve.now) result).vertices ≤ number }
        ensures high { number < (level_of (coarsest self.entry.curve.now) (result + 1)).vertices }
    {
        ((number - self.curve.extra()) / self.curve.base_edges()).ilog2() as usize
    }

    // The position of vertex `number`.
    pub(crate) fn placed(self, number: usize) -> usize
        requires { number < (level_at self).vertices }
        ensures { result ≡ position_of (coarsest self.entry.curve.now) self.entry.level number }
    {
        if number < self.curve.points {
            return number << self.level;
        }
        let before = self.edge_level(number);
        let edge = number - self.coarser(before).vertices();
        (2 * edge + 1) << (self.level - before - 1)
    }
}
