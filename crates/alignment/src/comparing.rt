// The labels of an instant, compared with those of the labelled one before.

ghost use Rattle.std.specs.Prelude.{◌≡◌, ◌||◌};
ghost use Rattle.calendar.specs.Lists.{is_some, same_label};
ghost use Rattle.cursors.specs.Found.{found};
ghost use Rattle.alignment.specs.Fits as Fits;
ghost use Rattle.alignment.specs.Fits.{alignment_of};
ghost use Rattle.alignment.specs.Pass.{is_compatible};

use super::Alignment;

// Whether there is one of two.
pub fn either(x: Option<i64>, y: Option<i64>) -> bool
    ensures { result ≡ is_some (found x) || is_some (found y) }
{
    x.is_some() || y.is_some()
}

// Whether both are the same label, or none.
pub fn same(x: Option<i64>, y: Option<i64>) -> bool
    ensures { result ≡ same_label (found x) (found y) }
{
    x == y
}

// Whether an instant with the labels x and y in a and b fits the labelled one before, which has o and p, as alter asks.
fn fits_partition(o: Option<i64>, p: Option<i64>, x: Option<i64>, y: Option<i64>) -> bool
    ensures { result ≡ Fits.fits_partition (found o) (found p) (found x) (found y) }
{
    if x.is_some() {
        if y.is_some() {
            if same(o, x) { same(p, y) } else { true }
        } else {
            false
        }
    } else {
        y.is_none()
    }
}

// As anchor asks.
fn fits_subcalendar(o: Option<i64>, p: Option<i64>, x: Option<i64>, y: Option<i64>) -> bool
    ensures { result ≡ Fits.fits_subcalendar (found o) (found p) (found x) (found y) }
{
    if y.is_some() {
        if same(x, y) {
            if same(o, x) { p.is_some() } else { true }
        } else {
            false
        }
    } else if x.is_some() {
        if same(o, x) { p.is_none() } else { true }
    } else {
        true
    }
}

// Whether two labels of one instant are the same, where there are two.
fn agree(x: Option<i64>, y: Option<i64>) -> bool
    ensures { result ≡ Fits.agree (found x) (found y) }
{
    if x.is_some() {
        if y.is_some() { same(x, y) } else { true }
    } else {
        true
    }
}

// Whether a's label before is below b's, or both have it at both instants.
fn crosses(o: Option<i64>, p: Option<i64>, x: Option<i64>, y: Option<i64>) -> bool
    ensures { result ≡ Fits.crosses (found o) (found p) (found x) (found y) }
{
    let Some(i) = o else {
        return true;
    };
    let Some(j) = y else {
        return true;
    };
    if i < j {
        return true;
    }
    if i != j {
        return false;
    }
    if same(o, p) { same(o, x) } else { false }
}

// As the set operations ask.
fn fits_compatible(o: Option<i64>, p: Option<i64>, x: Option<i64>, y: Option<i64>) -> bool
    ensures { result ≡ Fits.fits_compatible (found o) (found p) (found x) (found y) }
{
    if agree(x, y) {
        if crosses(o, p, x, y) {
            crosses(p, o, y, x)
        } else {
            false
        }
    } else {
        false
    }
}

// As the alignment asks.
pub fn fits(k: Alignment, o: Option<i64>, p: Option<i64>, x: Option<i64>, y: Option<i64>) -> bool
    ensures { result ≡ Fits.fits (alignment_of k) (found o) (found p) (found x) (found y) }
{
    match k {
        Alignment::Free => true,
        Alignment::Partition => fits_partition(o, p, x, y),
        Alignment::Subcalendar => fits_subcalendar(o, p, x, y),
        Alignment::Compatible => fits_compatible(o, p, x, y),
    }
}

// Whether an alignment is that of the set operations.
pub fn is_compatible(k: Alignment) -> bool
    ensures { result ≡ is_compatible (alignment_of k) }
{
    match k {
        Alignment::Free => false,
        Alignment::Partition => false,
        Alignment::Subcalendar => false,
        Alignment::Compatible => true,
    }
}
