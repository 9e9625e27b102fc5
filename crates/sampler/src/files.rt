// Files: read whole, and written so that nothing is lost where that fails.
use anyhow::anyhow;
use std::fs::File;
use std::io::{Read, Write};
use std::{fs, io};

// The bytes of the file.
pub(crate) fn read_file(rt: &HostRuntime, path: &str) -> anyhow::Result<Vec<u8>> {
    fs::read(rt, path).map_err(|why| anyhow!("cannot read {path}: {why}"))
}

// The bytes of the file, or so many zeros where there is none.
pub(crate) fn read_or_zeros(
    rt: &HostRuntime,
    path: &str,
    length: usize,
) -> anyhow::Result<Vec<u8>> {
    match fs::exists(rt, path) {
        Ok(false) => Ok(vec![in rt.alloc(); 0; length]?),
        _ => read_file(rt, path),
    }
}

// The bytes of standard input.
pub(crate) fn read_input(rt: &HostRuntime) -> anyhow::Result<Vec<u8>> {
    let mut bytes = Vec::new(rt.alloc());
    rt.stdin()
        .read_to_end(&mut bytes)
        .map_err(|why| anyhow!("cannot read standard input: {why}"))?;
    Ok(bytes)
}

// Writes the file anew: to a temporary file beside it, which then takes its name.
pub(crate) fn save(rt: &HostRuntime, path: &str, bytes: &[u8]) -> anyhow::Result<()> {
    let temporary = format!(in rt.alloc(); "{path}.new")?;
    write_synced(rt, temporary.as_str(), bytes).map_err(|why| anyhow!(
        "cannot write {temporary}: {why}"
    ))?;
    fs::rename(rt, temporary.as_str(), path).map_err(|why| anyhow!(
        "cannot rename {temporary} to {path}: {why}"
    ))
}

fn write_synced(rt: &HostRuntime, path: &str, bytes: &[u8]) -> io::Result<()> {
    let mut file = File::create(rt, path)?;
    file.write_all(bytes)?;
    file.sync_data()?;
    Ok(())
}
