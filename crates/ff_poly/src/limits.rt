// The degree limits of an equation.

/// The greatest degree in x that an equation may have.
pub const MAX_X_DEGREE: usize = 12;

/// The greatest degree in y that an equation may have.
pub const MAX_Y_DEGREE: usize = 6;

/// The greatest degree in x that the monic form of an equation may have.
pub const MAX_MONIC_DEGREE: usize = 24;
