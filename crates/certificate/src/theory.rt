// What an accepted certificate shows, whoever wrote it.
ghost use Rattle.certificate.specs.Completeness.{ChoicesAreValid};
ghost use Rattle.certificate.specs.Soundness.{ShowsLargest, ShowsHeaviest, FaultlessIsValid, OneFirstFault};

// The largest set of a valid certificate is a largest one that both rules allow.
pub fn certificates_show_largest() -> u8
    ensures { ShowsLargest }
{
    0
}

// The set of each size of a valid certificate is a heaviest one of its size that both rules allow.
pub fn certificates_show_heaviest() -> u8
    ensures { ShowsHeaviest }
{
    0
}

// Valid certificates are those with no fault.
pub fn faultless_certificates_are_valid() -> u8
    ensures { FaultlessIsValid }
{
    0
}

// The first fault of a certificate is one.
pub fn one_fault_is_the_first() -> u8
    ensures { OneFirstFault }
{
    0
}

// What is written from a choice is a valid certificate.
pub fn choices_are_valid() -> u8
    ensures { ChoicesAreValid }
{
    0
}
