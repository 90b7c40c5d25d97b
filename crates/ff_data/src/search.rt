// What the search for isomorphisms hands on: relations of a pole system, and candidates.
use crate::list::CoordsList;
use crate::pair::Pair;
use crate::system::PolyLists;
use ff_elem::PolyList;

/// A relation of a pole system: `w` has the coordinates of an element w of its ring that is not 0,
/// `coeffs` has e polynomials r_i with `w^e + r_(e-1)(z)*w^(e-1) + .. + r_0(z) = 0`, w has no such
/// relation of lower degree over k(z), and `back` writes for each i, over a monic polynomial q,
/// `q(z)*b_i` as a sum of `c_l(z)*w^l`. This project's own.
#[derive(Drop)]
pub struct Relation {
    pub w: PolyList,
    pub coeffs: PolyList,
    pub back: CoordsList,
}

/// A map of the first field into the second that may be an isomorphism: z of the first pole system
/// goes to `alpha*z + beta`, `images` has for each b_i of the first system the coordinates of its
/// image in the second, and `pair` has the images of x and y. This project's own.
#[derive(Drop)]
pub struct Candidate {
    pub alpha: u32,
    pub beta: u32,
    pub images: PolyLists,
    pub pair: Pair,
}
