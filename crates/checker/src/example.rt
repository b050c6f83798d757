// A small example: two offers of weights 5 and 3, of which the first rule allows one and the second any, and a certificate.
pub const OFFERS: [u8; 17] = [2, 0, 5, 0, 0, 0, 3, 0, 0, 0, 1, 1, 1, 0, 3, 1, 0];

// The largest set has offer 0, its dual set both; for size 1 offer 0 with the parts 5 and 0, offer 1 with 4 and -1.
pub const CERTIFICATE: [u8; 35] = [
    1, 3, 1, 5, 0, 0, 0, 0, 0, 0, 0, 0, 0, 0, 0, 0, 0, 0, 0, 4, 0, 0, 0, 0, 0, 0, 0, 255, 255, 255,
    255, 255, 255, 255, 255,
];
