//! Texts that several tables of cases name.

/// Five buffers of size 4, of which three are live at once.
pub(crate) const FIVE: &str =
    "id,lower,upper,size\nb1,0,3,4\nb2,3,9,4\nb3,0,9,4\nb4,9,21,4\nb5,0,21,4\n";

pub(crate) const FIVE_AT_12: &str =
    "id,lower,upper,size,offset\nb1,0,3,4,0\nb2,3,9,4,0\nb3,0,9,4,4\nb4,9,21,4,0\nb5,0,21,4,8\n";

pub(crate) const FIVE_OVER_11: &str = "dsalog 1 5 11\nover 0 0 1 : 0=0 2=0 4=0\nend 0\n";

/// The load is 4, and the least capacity is 5.
pub(crate) const THREE: &str = "id,lower,upper,size,alignment\nA,0,1,1,2\nB,0,1,1,2\nC,0,1,2,1\n";

pub(crate) const THREE_AT_5: &str =
    "id,lower,upper,size,alignment,offset\nA,0,1,1,2,2\nB,0,1,1,2,4\nC,0,1,2,1,0\n";
