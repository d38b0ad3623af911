// The arrays that conditions are read from: what all jobs share, and the slots of specs/Closed.antt. Array beside array, since C's room has
// them so. What every room keeps of their numbers is a clause (`Fits`) and no invariant of the types: a host lends memory that holds
// anything to its opening.

#[repr(C)]
#[derive(Drop)]
pub struct Shared {
    pub coefficients: [i64; 128],
    pub values: [i64; 8],
}

#[repr(C)]
#[derive(Drop)]
pub struct Conditions {
    pub alternatives: [u8; 32],
    pub atoms: [u8; 128],
    pub measure: [u8; 512],
    pub operator: [u8; 512],
    pub key: [i64; 512],
}
