// The theorems that the search for certificates rests on. Each is the contract of a call that does nothing else,
// so that the crate is proved only with it.
ghost use Rattle.polynomials.specs.Theorems.{PairsAreRing, CertificatesExclude, CertificatesStay, CertificatesRise, OneIsUnity, RanksSuffice, ProductsSuffice, MatrixDecides, EntriesAreImages, CertificatesIndependent, CertificatesAgree};

use fields::Field;

/// Values are taken in a commutative ring.
pub fn pairs_are_ring<F: Field>()
    ensures { PairsAreRing F.ops }
{}

/// A certificate shows that the equations have no solution.
pub fn certificates_exclude<F: Field>()
    ensures { CertificatesExclude F.ops }
{}

/// More variables and more equations keep a certificate.
pub fn certificates_stay<F: Field>()
    ensures { CertificatesStay F.ops }
{}

/// Higher degrees keep a certificate.
pub fn certificates_rise<F: Field>()
    ensures { CertificatesRise F.ops }
{}

/// The polynomial one is the term one.
pub fn one_is_unity<F: Field>()
    ensures { OneIsUnity F.ops }
{}

/// Combinations of products are known from their coefficients at the ranks.
pub fn ranks_suffice<F: Field>()
    ensures { RanksSuffice F.ops }
{}

/// Certificates may be searched as coefficients by product number.
pub fn products_suffice<F: Field>()
    ensures { ProductsSuffice F.ops }
{}

/// A certificate of a degree is a solution of the linear system of that degree.
pub fn matrix_decides<F: Field>()
    ensures { MatrixDecides F.ops }
{}

/// Equations with coefficients one have the same matrix over every field, read by bits.
pub fn entries_are_images<F: Field>()
    ensures { EntriesAreImages F.ops }
{}

/// A certificate can do with independent products, and by them in one way only.
pub fn certificates_independent<F: Field>()
    ensures { CertificatesIndependent F.ops }
{}

/// Over two fields, equations with coefficients one have the same certificates by independent products.
pub fn certificates_agree<F: Field, G: Field>()
    ensures { CertificatesAgree F.ops G.ops }
{}
