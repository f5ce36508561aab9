//! Numbers by section, at the sections of one buffer.

ghost use Rattle.std.specs.Prelude.{◌≡◌, ℕ, ◌+◌, ◌-◌, ◌<◌, ◌≤◌, ◌^◌, List, length, slice_index};
ghost use Rattle.dsa_terms.specs.Claims.{Rises};
ghost use Rattle.std.specs.List.{All};
ghost use Rattle.dsa_terms.specs.Logs.{greatest};
ghost use Rattle.skyline.specs.Places.{set_each, at_places};

/// The greatest height at the sections, and 0 for none.
pub(crate) fn highest(heights: &[u64], sections: &[u32]) -> u64
    requires { All (λ s. s < length heights.now) sections.now }
    ensures { result ≡ greatest (at_places heights.now sections.now) }
{
    let mut top = 0;
    for i in 0..sections.len() {
        let height = heights[sections[i] as usize];
        if height > top {
            top = height;
        }
    }
    top
}

/// Keeps the heights at the sections.
pub(crate) fn save(saved: &mut [u64], heights: &[u64], sections: &[u32])
    requires room { length saved.old ≡ length sections.now }
    requires in_range { All (λ s. s < length heights.now) sections.now }
    ensures { saved.new ≡ at_places heights.now sections.now }
{
    for i in 0..sections.len() {
        saved[i] = heights[sections[i] as usize];
    }
}

/// Writes one height at the sections.
pub(crate) fn raise(heights: &mut [u64], sections: &[u32], top: u64)
    requires { All (λ s. s < length heights.old) sections.now }
    ensures { heights.new ≡ set_each (λ _. top) sections.now heights.old }
{
    for i in 0..sections.len() {
        heights[sections[i] as usize] = top;
    }
}

/// Writes kept heights back.
pub(crate) fn restore(heights: &mut [u64], sections: &[u32], saved: &[u64])
    requires room { length saved.now ≡ length sections.now }
    requires in_range { All (λ s. s < length heights.old) sections.now }
    ensures { (kept : List ℕ) → saved.now ≡ at_places kept sections.now →
        heights.new ≡ set_each (slice_index kept) sections.now heights.old }
{
    for i in 0..sections.len() {
        heights[sections[i] as usize] = saved[i];
    }
}

/// Takes the size off the loads at the sections.
pub(crate) fn lighten(loads: &mut [u64], sections: &[u32], size: u64)
    requires rise { Rises sections.now }
    requires in_range { All (λ s. s < length loads.old) sections.now }
    requires enough { All (λ s. size ≤ slice_index loads.old s) sections.now }
    ensures { loads.new ≡ set_each (λ s. slice_index loads.old s - size) sections.now loads.old }
{
    for i in 0..sections.len() {
        loads[sections[i] as usize] -= size;
    }
}

/// Puts the size back on the loads at the sections.
pub(crate) fn burden(loads: &mut [u64], sections: &[u32], size: u64)
    requires rise { Rises sections.now }
    requires in_range { All (λ s. s < length loads.old) sections.now }
    requires room { All (λ s. slice_index loads.old s + size < 2 ^ 64) sections.now }
    ensures { loads.new ≡ set_each (λ s. slice_index loads.old s + size) sections.now loads.old }
{
    for i in 0..sections.len() {
        loads[sections[i] as usize] += size;
    }
}
