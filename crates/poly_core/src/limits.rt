/// The greatest order of a root of unity that numbers may have.
pub const ROOT_LIMIT: usize = 60;

/// The greatest degree of the cyclotomic polynomial of such a root: a number has at most as many coefficients.
pub const DEGREE_LIMIT: usize = 16;

/// The most coefficients of such a polynomial, the top one among them.
pub const COEFFICIENT_LIMIT: usize = DEGREE_LIMIT + 1;
