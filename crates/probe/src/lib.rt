// Every public call as a C export, for tests and benchmarks alone: no user links this. A call returns its reply's number and puts
// its other numbers into `answer`, in the order of docs/PROTOCOL.md; a call that writes takes the buffer besides.
// Each is a function of its own, with its arguments one by one: the C interface of the tests and the bench has these names.
#![tactic(auto)]

use paths::Cursor;

#[unsafe(no_mangle)]
pub extern "C" fn probe_prefix(mode: usize, path: &[u8], answer: &mut [usize; 7]) -> usize {
    numbers::put_prefix(paths::prefix(mode, path), answer)
}

#[unsafe(no_mangle)]
pub extern "C" fn probe_next(
    mode: usize,
    front: usize,
    back: usize,
    path: &[u8],
    answer: &mut [usize; 12],
) -> usize {
    numbers::put_step(Cursor { mode, front, back }.next(path), answer)
}

#[unsafe(no_mangle)]
pub extern "C" fn probe_next_back(
    mode: usize,
    front: usize,
    back: usize,
    path: &[u8],
    answer: &mut [usize; 12],
) -> usize {
    numbers::put_step(Cursor { mode, front, back }.next_back(path), answer)
}

#[unsafe(no_mangle)]
pub extern "C" fn probe_as_path(
    mode: usize,
    front: usize,
    back: usize,
    path: &[u8],
    answer: &mut [usize; 2],
) -> usize {
    numbers::put_view(Cursor { mode, front, back }.as_path(path), answer)
}

#[unsafe(no_mangle)]
pub extern "C" fn probe_parent(mode: usize, path: &[u8], answer: &mut [usize; 2]) -> usize {
    numbers::put_view(paths::parent(mode, path), answer)
}

#[unsafe(no_mangle)]
pub extern "C" fn probe_ancestor(
    mode: usize,
    n: usize,
    path: &[u8],
    answer: &mut [usize; 2],
) -> usize {
    numbers::put_view(paths::ancestor(mode, path, n), answer)
}

#[unsafe(no_mangle)]
pub extern "C" fn probe_file_name(mode: usize, path: &[u8], answer: &mut [usize; 2]) -> usize {
    numbers::put_view(paths::file_name(mode, path), answer)
}

#[unsafe(no_mangle)]
pub extern "C" fn probe_file_stem(mode: usize, path: &[u8], answer: &mut [usize; 2]) -> usize {
    numbers::put_view(paths::file_stem(mode, path), answer)
}

#[unsafe(no_mangle)]
pub extern "C" fn probe_extension(mode: usize, path: &[u8], answer: &mut [usize; 2]) -> usize {
    numbers::put_view(paths::extension(mode, path), answer)
}

#[unsafe(no_mangle)]
pub extern "C" fn probe_has_root(mode: usize, path: &[u8], answer: &mut [usize; 1]) -> usize {
    numbers::put_verdict(paths::has_root(mode, path), answer)
}

#[unsafe(no_mangle)]
pub extern "C" fn probe_is_absolute(mode: usize, path: &[u8], answer: &mut [usize; 1]) -> usize {
    numbers::put_verdict(paths::is_absolute(mode, path), answer)
}

#[unsafe(no_mangle)]
pub extern "C" fn probe_compare(mode: usize, p: &[u8], q: &[u8], answer: &mut [usize; 1]) -> usize {
    numbers::put_verdict(paths::compare(mode, p, q), answer)
}

#[unsafe(no_mangle)]
pub extern "C" fn probe_starts_with(
    mode: usize,
    p: &[u8],
    q: &[u8],
    answer: &mut [usize; 1],
) -> usize {
    numbers::put_verdict(paths::starts_with(mode, p, q), answer)
}

#[unsafe(no_mangle)]
pub extern "C" fn probe_ends_with(
    mode: usize,
    p: &[u8],
    q: &[u8],
    answer: &mut [usize; 1],
) -> usize {
    numbers::put_verdict(paths::ends_with(mode, p, q), answer)
}

#[unsafe(no_mangle)]
pub extern "C" fn probe_strip_prefix(
    mode: usize,
    p: &[u8],
    q: &[u8],
    answer: &mut [usize; 2],
) -> usize {
    numbers::put_view(paths::strip_prefix(mode, p, q), answer)
}

#[unsafe(no_mangle)]
pub extern "C" fn probe_join(
    mode: usize,
    p: &[u8],
    q: &[u8],
    out: &mut [u8],
    answer: &mut [usize; 2],
) -> usize {
    numbers::put_view(paths::join(mode, p, q, out), answer)
}

#[unsafe(no_mangle)]
pub extern "C" fn probe_set_file_name(
    mode: usize,
    p: &[u8],
    q: &[u8],
    out: &mut [u8],
    answer: &mut [usize; 2],
) -> usize {
    numbers::put_view(paths::set_file_name(mode, p, q, out), answer)
}

#[unsafe(no_mangle)]
pub extern "C" fn probe_set_extension(
    mode: usize,
    p: &[u8],
    e: &[u8],
    out: &mut [u8],
    answer: &mut [usize; 2],
) -> usize {
    numbers::put_view(paths::set_extension(mode, p, e, out), answer)
}

#[unsafe(no_mangle)]
pub extern "C" fn probe_absolute(
    mode: usize,
    path: &[u8],
    cwd: &[u8],
    out: &mut [u8],
    answer: &mut [usize; 2],
) -> usize {
    numbers::put_view(paths::absolute(mode, path, cwd, out), answer)
}
