// The search through the pole orders.
ghost use Rattle.std.specs.Prelude.{◌≡◌, ℕ, ◌+◌, ◌*◌, ◌<◌, ◌≤◌, pred, length, IfOk, IfSome};
ghost use Rattle.std.specs.Prelude.{[], ◌∷◌, ◌++◌};
ghost use Rattle.std.specs.List.{All};
ghost use Rattle.ff_theory.specs.Ring.{IsElement};
ghost use Rattle.ff_theory.specs.Span.{unit_at};
ghost use Rattle.ff_theory.specs.Vector.{vector_of, IsVector};
ghost use Rattle.ff_data.specs.declared.order.Chart.TheVariants.{Infinite};
ghost use Rattle.ff_data.specs.declared.point.Point.{Point};
ghost use Rattle.ff_data.specs.Orders.{y_degree, IsOrder};
ghost use Rattle.ff_frac.specs.Powers.{HasPowersForm};

use crate::echelon::Echelon;
use crate::frame::{Frame, unit};
use crate::images::{image, raised};
use crate::numbers::{PoleNumber, agrees, is_complete, with_relation};
use ff_alg::{FiniteField, NoMemory};
use ff_data::{Chart, Order, System};
use ff_elem::Alg;
use ff_frac::Powers;
use ff_lattice::vector_of_plane;
use ff_poly::Plane;
use std::alloc::Global;

/// The numerators of the powers that are done with, and the last of them or the next one.
#[derive(Drop)]
pub struct Trail {
    pub powers: Powers,
    pub passed: Vec<Plane>,
}

/// The rows of all images up to a pole order, the powers up to it, and the pole numbers that were
/// found.
#[derive(Drop)]
pub struct Search {
    pub echelon: Echelon,
    pub trail: Trail,
    pub numbers: Vec<PoleNumber>,
}

/// What the search came to: all classes have pole numbers, or the pole numbers are not those of the
/// system that was given, or the bound was passed before.
#[derive(Drop)]
pub enum Outcome {
    Complete(Search),
    Differs,
    Short,
}

impl Trail {
    ghost use Rattle.ff_functions.specs.Searches.{HasFrameForm, HasTrailForm};
    ghost use Rattle.ff_functions.specs.Searches.{IsPowerOf, IsPowerImage};

    /// The image of power i.
    fn image<K: FiniteField<E = u32>>(
        &self,
        alloc: Global,
        alg: &Alg<K>,
        order: &Order,
        frame: &Frame,
        i: usize,
        m: usize,
    ) -> Result<Vec<u32>, NoMemory>
        requires order { IsOrder (K.lawful alg.now.k) alg.now.f order.now }
        requires frame { HasFrameForm (K.lawful alg.now.k) alg.now.f frame.now }
        requires form { HasTrailForm (K.lawful alg.now.k) alg.now.f order.now i m self.now }
        requires room { order.now.chart ≡ Infinite → pred (length order.now.d) + i ≤ frame.now.h }
        ensures vector { let L = K.lawful alg.now.k in let n = y_degree L alg.now.f in
            IfOk result (λ r. IsVector (K.elements alg.now.k) (n * frame.now.h) r.items) }
        ensures value { let F = K.elements alg.now.k in let L = K.lawful alg.now.k in
            let s = self.now.powers in IfOk result (λ r. (p : Point) →
            IsPowerOf L alg.now.f order.now p i s →
            IsPowerImage L alg.now.f order.now p frame.now.h i s.power (vector_of F r.items)) }
    {
        let _index = (i, m);
        let d = &self.powers.modulus;
        let l = d.coeffs().len() - 1;
        let n = alg.f.rows().len() - 1;
        let v = vector_of_plane(alloc, &alg.k, &self.powers.power, n, l)?;
        match order.chart {
            Chart::Finite => image(alloc, alg, frame.slope, frame.h, &v, l, d),
            Chart::Infinite => {
                let s = frame.h - l;
                raised(alloc, alg, s, l, frame.h, &v)
            },
        }
    }

    /// The trail with its power among those that are done with.
    fn noted<K: FiniteField<E = u32>>(
        self,
        alloc: Global,
        alg: &Alg<K>,
        order: &Order,
        i: usize,
        m: usize,
    ) -> Result<Trail, NoMemory>
        requires form { HasTrailForm (K.lawful alg.now.k) alg.now.f order.now i m self }
        ensures form { IfOk result
            (HasTrailForm (K.lawful alg.now.k) alg.now.f order.now i (m + 1)) }
        ensures passed { IfOk result
            (λ r. r.passed.items ≡ self.passed.items ++ self.powers.power ∷ []) }
        ensures powers { IfOk result (λ r. r.powers ≡ self.powers) }
    {
        let _context = (order.chart, alg.f.rows().len(), i, m);
        let power = self.powers.power.copy(alloc)?;
        let mut passed = self.passed;
        passed.push(power)?;
        Ok(Trail {
            powers: self.powers,
            passed,
        })
    }

    /// The trail with the next power.
    fn step<K: FiniteField<E = u32>>(
        self,
        alloc: Global,
        alg: &Alg<K>,
        order: &Order,
        i: usize,
        m: usize,
    ) -> Result<Trail, NoMemory>
        requires order { IsOrder (K.lawful alg.now.k) alg.now.f order.now }
        requires form { HasTrailForm (K.lawful alg.now.k) alg.now.f order.now i m self }
        ensures form { IfOk result
            (HasTrailForm (K.lawful alg.now.k) alg.now.f order.now (i + 1) m) }
        ensures passed { IfOk result (λ r. r.passed.items ≡ self.passed.items) }
        ensures exact { let L = K.lawful alg.now.k in IfOk result (λ r. (p : Point) →
            IsPowerOf L alg.now.f order.now p i self.powers →
            IsPowerOf L alg.now.f order.now p (i + 1) r.powers) }
    {
        let _count = m;
        Ok(Trail {
            powers: self.powers.step(alloc, alg, order, i)?,
            passed: self.passed,
        })
    }
}

impl Search {
    ghost use Rattle.ff_functions.specs.Searches.{HasWeights, IsComplete, HasFrameForm};
    ghost use Rattle.ff_functions.specs.Searches.{HasSearchForm, IsOutcome, IsPowerImage};
    ghost use Rattle.ff_functions.specs.Searches.{IsLook, Keeps, Ends, AgreesAt};
    ghost use Rattle.ff_forms.specs.declared.functions.TheConstants.{POLE_LIMIT};

    /// The search with the row of the image of power j, by c numerators, and whether j is a pole
    /// number.
    fn with_image<K: FiniteField<E = u32>>(
        self,
        alloc: Global,
        alg: &Alg<K>,
        order: &Order,
        c: usize,
        j: u32,
        image: Vec<u32>,
        origin: Vec<u32>,
    ) -> Result<(Search, bool), NoMemory>
        requires positive { 0 < j }
        requires form { HasSearchForm (K.lawful alg.now.k) alg.now.f order.now
            (length image.items) c j (pred j) self }
        requires image { All (IsElement (K.elements alg.now.k)) image.items }
        requires origin { IsVector (K.elements alg.now.k) (c + j) origin.items }
        requires unit { let F = K.elements alg.now.k in
            (i : ℕ) → vector_of F origin.items i ≡ unit_at F.ring (c + pred j) i }
        ensures form { IfOk result (λ r. HasSearchForm (K.lawful alg.now.k) alg.now.f order.now
            (length image.items) c j j r.0) }
        ensures held { let F = K.elements alg.now.k in let L = K.lawful alg.now.k in
            let f = alg.now.f in let o = order.now in let v = vector_of F image.items in
            let N = self.trail.powers.power in
            IfOk result (λ r. (p : Point) (h : ℕ) → IsPowerImage L f o p h j N v →
            IsLook L f o p h c j self r.0 r.1) }
    {
        let (echelon, relation) = self.echelon.insert(alloc, &alg.k, image, origin)?;
        let (numbers, is_number) = with_relation(&alg.k, self.numbers, c, j, relation)?;
        let trail = self
            .trail
            .noted(alloc, alg, order, j as usize, j as usize - 1)?;
        let search = Search {
            echelon,
            trail,
            numbers,
        };
        Ok((search, is_number))
    }

    /// The search with power j, and whether j is a pole number.
    fn look<K: FiniteField<E = u32>>(
        self,
        alloc: Global,
        alg: &Alg<K>,
        order: &Order,
        frame: &Frame,
        j: u32,
    ) -> Result<(Search, bool), NoMemory>
        requires order { IsOrder (K.lawful alg.now.k) alg.now.f order.now }
        requires frame { HasFrameForm (K.lawful alg.now.k) alg.now.f frame.now }
        requires positive { 0 < j }
        requires room { order.now.chart ≡ Infinite → pred (length order.now.d) + j ≤ frame.now.h }
        requires form { let L = K.lawful alg.now.k in HasSearchForm L alg.now.f order.now
            (y_degree L alg.now.f * frame.now.h) (length frame.now.numerators.items) j (pred j)
            self }
        ensures form { let L = K.lawful alg.now.k in IfOk result (λ r.
            HasSearchForm L alg.now.f order.now (y_degree L alg.now.f * frame.now.h)
            (length frame.now.numerators.items) j j r.0) }
        ensures held { let L = K.lawful alg.now.k in let c = length frame.now.numerators.items in
            IfOk result (λ r. (p : Point) →
            IsLook L alg.now.f order.now p frame.now.h c j self r.0 r.1) }
    {
        let i = j as usize;
        let image = self.trail.image(alloc, alg, order, frame, i, i - 1)?;
        let c = frame.numerators.len();
        let origin = unit(alloc, &alg.k, c + self.trail.passed.len())?;
        self.with_image(alloc, alg, order, c, j, image, origin)
    }

    /// The search with the power for the order after j.
    fn advance<K: FiniteField<E = u32>>(
        self,
        alloc: Global,
        alg: &Alg<K>,
        order: &Order,
        frame: &Frame,
        j: u32,
    ) -> Result<Search, NoMemory>
        requires order { IsOrder (K.lawful alg.now.k) alg.now.f order.now }
        requires form { let L = K.lawful alg.now.k in HasSearchForm L alg.now.f order.now
            (y_degree L alg.now.f * frame.now.h) (length frame.now.numerators.items) j j self }
        ensures form { let L = K.lawful alg.now.k in IfOk result
            (HasSearchForm L alg.now.f order.now (y_degree L alg.now.f * frame.now.h)
            (length frame.now.numerators.items) (j + 1) j) }
        ensures held { let L = K.lawful alg.now.k in let c = length frame.now.numerators.items in
            IfOk result (Keeps L alg.now.f order.now frame.now.h c j self) }
        ensures numbers { IfOk result (λ r. r.numbers.items ≡ self.numbers.items) }
    {
        let _frame = frame;
        let i = j as usize;
        Ok(Search {
            echelon: self.echelon,
            trail: self.trail.step(alloc, alg, order, i, i)?,
            numbers: self.numbers,
        })
    }

    /// The search through the pole orders up to a bound.
    pub(crate) fn run<K: FiniteField<E = u32>>(
        self,
        alloc: Global,
        alg: &Alg<K>,
        order: &Order,
        frame: &Frame,
        like: Option<&System>,
        bound: u32,
    ) -> Result<Outcome, NoMemory>
        requires order { IsOrder (K.lawful alg.now.k) alg.now.f order.now }
        requires frame { HasFrameForm (K.lawful alg.now.k) alg.now.f frame.now }
        requires like { IfSome like (λ s. HasWeights s.now) }
        requires bound { bound ≤ POLE_LIMIT }
        requires room { order.now.chart ≡ Infinite →
            pred (length order.now.d) + bound ≤ frame.now.h }
        requires form { let L = K.lawful alg.now.k in HasSearchForm L alg.now.f order.now
            (y_degree L alg.now.f * frame.now.h) (length frame.now.numerators.items) 1 0 self }
        ensures form { let L = K.lawful alg.now.k in IfOk result (λ r. IsOutcome L alg.now.f
            order.now (length frame.now.numerators.items) r) }
        ensures held { let L = K.lawful alg.now.k in let c = length frame.now.numerators.items in
            IfOk result (Ends L alg.now.f order.now frame.now.h c bound
            (λ j b. IfSome like.entry (λ s. AgreesAt s.now j b)) self) }
    {
        let mut search = self;
        for j in 1..bound + 1 {
            let (next, is_number) = search.look(alloc, alg, order, frame, j)?;
            if !agrees(like, j, is_number) {
                return Ok(Outcome::Differs);
            }
            if is_complete(&next.numbers) {
                return Ok(Outcome::Complete(next));
            }
            search = next.advance(alloc, alg, order, frame, j)?;
        }
        Ok(Outcome::Short)
    }
}
