// The real host. Which file or stream stands behind a role is trusted, since no contract can say what the system opens.
ghost use Rattle.std.specs.Fs.{new_options, with_create, with_read, with_truncate, with_write};
ghost use Rattle.std.specs.Prelude.{◌≡◌, ◌≢◌, ◌<◌, ◌≤◌, true, false, length, take, IfOk, MatchResult, OnErr};
ghost use Rattle.std.specs.Io.KnownBytes.{IsAtEnd, ReadConsumes, WriteAppends};
ghost use Rattle.mn_edge.specs.declared.role.Role.{Role};
ghost use Rattle.mn_edge.specs.Part.{Fails, Begins, Takes, Adds, Finishes};
ghost use Rattle.mn_edge.specs.Role.{is_input};
ghost use Rattle.mn_edge.specs.RealHostView.{silent_part, file_of, file_bytes, bytes_ahead, bytes_taken, TouchesFile};
ghost use Rattle.mn_edge.specs.RealRoleView.{unused_role, silent, faults_after};

use crate::host::{Failed, Host};
use crate::real_role::RealRole;
use crate::role::Role;
use std::fs::{File, Files, OpenOptions};
use std::io::{Read, Write};
use std::marker::Model;
use std::rt::Stdout;
use std::{array, io};

/// Files of the system, and a stream for Screen, whatever its name: standard output, unless `over` is given another one.
///
/// The files of Topology, Trace, Directory and Journal are opened to be read; those of Out and Report are made, and
/// emptied, when they are begun. Each error of the system is a counted fault, and so are a write that takes nothing and a name for
/// which there is no memory, which is found before a file is opened. As a host it tells no bytes; the clauses `bytes` of
/// its own calls say that a call moves just those bytes that the file or stream gave or took.
#[derive(Drop)]
pub struct RealHost<R, F, S> {
    rt: R,
    screen: S,
    files: [Option<F>; Role::COUNT],
    roles: [RealRole; Role::COUNT],
}

impl<R, F, S> Model for RealHost<R, F, S> {
    ghost use Rattle.mn_edge.specs.RealHostView.{RealHostView};

    ghost Value = { RealHostView F S };

    ghost view = { λ h. record { roles = h.roles; files = h.files; screen = h.screen } };
}

/// How the file of a role is opened: an input to be read, an output to be written, made where it isn't there, and emptied.
fn options_of(role: Role) -> OpenOptions
    ensures input { is_input role ≡ true → result ≡ with_read new_options true }
    ensures output { is_input role ≡ false
        → result ≡ with_truncate (with_create (with_write new_options true) true) true }
{
    let mut options = OpenOptions::new();
    if role.is_input() {
        options.read(true);
    } else {
        options.write(true);
        options.create(true);
        options.truncate(true);
    }
    options
}

/// The file of a role, and none for Screen.
fn open<R: Files>(rt: &R, role: Role, name: &str) -> io::Result<Option<R::File>> {
    if role == Role::Screen {
        Ok(None)
    } else {
        Ok(Some(options_of(role).open(rt, name)?))
    }
}

fn read_from<F: Read>(file: &mut Option<F>, buffer: &mut [u8]) -> Result<usize, Failed>
    ensures within { IfOk result (λ n. n ≤ length buffer.new) }
    ensures bytes { ReadConsumes (file_bytes F.remaining file.old) (file_bytes F.remaining file.new) result buffer.new }
{
    match file {
        Some(file) => file.read(buffer).map_err(|_| Failed),
        None => Err(Failed),
    }
}

fn write_to<W: Write>(writer: &mut W, piece: &[u8]) -> Result<usize, Failed>
    ensures within { IfOk result (λ n. (1 ≤ n) × (n ≤ length piece.now)) }
    ensures bytes { WriteAppends (W.contents writer.old) (W.contents writer.new) result piece.now }
{
    match writer.write(piece) {
        Ok(0) | Err(_) => Err(Failed),
        Ok(count) => Ok(count),
    }
}

fn write_to_file<F: Write>(file: &mut Option<F>, piece: &[u8]) -> Result<usize, Failed>
    ensures within { IfOk result (λ n. (1 ≤ n) × (n ≤ length piece.now)) }
    ensures bytes { WriteAppends (file_bytes F.contents file.old) (file_bytes F.contents file.new) result piece.now }
{
    match file {
        Some(file) => write_to(file, piece),
        None => Err(Failed),
    }
}

impl RealHost<HostRuntime, File, Stdout> {
    /// The system's files and standard output, of which no role was begun yet.
    pub fn new(rt: HostRuntime) -> RealHost<HostRuntime, File, Stdout>
        ensures unused { (role : Role) → silent_part result role ≡ silent unused_role }
        ensures inactive { (role : Role) → (silent_part result role).active ≡ false }
    {
        let screen = rt.stdout();
        RealHost::over(rt, screen)
    }
}

impl<R, F, S> RealHost<R, F, S> {
    /// A host over these files and this stream, of which no role was begun yet.
    pub fn over(rt: R, screen: S) -> RealHost<R, F, S>
        ensures unused { (role : Role) → silent_part result role ≡ silent unused_role }
        ensures inactive { (role : Role) → (silent_part result role).active ≡ false }
        ensures screen { result.screen ≡ screen }
    {
        RealHost {
            rt,
            screen,
            files: array::from_fn(|_| None),
            roles: array::from_fn(|_| RealRole::new()),
        }
    }
}

impl<R: Files<File = F> + AllocGlobal + Drop, F: Read + Write + Drop, S: Write + Drop> Host
    for RealHost<R, F, S> {
    ghost use Rattle.mn_edge.specs.RealHostView.{silent_part};

    ghost part = { silent_part };

    fn begin(&mut self, role: Role, name: &str) -> Result<(), Failed>
        requires { (silent_part self.old role).active ≡ false }
        ensures own { MatchResult result
            (λ _. Begins name.now (silent_part self.old role) (silent_part self.new role))
            (λ _. Fails (silent_part self.old role) (silent_part self.new role)) }
        ensures others { (other : Role) → other ≢ role → silent_part self.new other ≡ silent_part self.old other }
        ensures counted { (silent_part self.new role).faults ≡ faults_after (silent_part self.old role).faults result }
        ensures files { (other : Role) → other ≢ role → file_of self.new other ≡ file_of self.old other }
        ensures screen { self.new.screen ≡ self.old.screen }
    {
        let index = role.index();
        let Ok(kept) = String::from_str(self.rt.alloc(), name) else {
            self.roles[index].fault();
            return Err(Failed);
        };
        let Ok(opened) = open(&self.rt, role, name) else {
            self.roles[index].fault();
            return Err(Failed);
        };
        self.roles[index].begin(kept);
        self.files[index] = opened;
        Ok(())
    }

    fn read(&mut self, role: Role, buffer: &mut [u8]) -> Result<usize, Failed>
        requires active { (silent_part self.old role).active ≡ true }
        requires room { 0 < length buffer.old }
        ensures within { IfOk result (λ n. n ≤ length buffer.new) }
        ensures own { MatchResult result
            (λ n. Takes (take n buffer.new) (silent_part self.old role) (silent_part self.new role))
            (λ _. Fails (silent_part self.old role) (silent_part self.new role)) }
        ensures end { IfOk result (λ n. n ≡ 0 → IsAtEnd (silent_part self.new role).left) }
        ensures others { (other : Role) → other ≢ role → silent_part self.new other ≡ silent_part self.old other }
        ensures counted { (silent_part self.new role).faults ≡ faults_after (silent_part self.old role).faults result }
        ensures bytes { ReadConsumes (bytes_ahead F.remaining self.old role) (bytes_ahead F.remaining self.new role) result buffer.new }
        ensures files { (other : Role) → other ≢ role → file_of self.new other ≡ file_of self.old other }
        ensures screen { self.new.screen ≡ self.old.screen }
    {
        let index = role.index();
        let Ok(count) = read_from(&mut self.files[index], buffer) else {
            self.roles[index].fault();
            return Err(Failed);
        };
        Ok(count)
    }

    fn write(&mut self, role: Role, piece: &[u8]) -> Result<usize, Failed>
        requires active { (silent_part self.old role).active ≡ true }
        requires some { 0 < length piece.now }
        ensures within { IfOk result (λ n. (1 ≤ n) × (n ≤ length piece.now)) }
        ensures own { MatchResult result
            (λ n. Adds (take n piece.now) (silent_part self.old role) (silent_part self.new role))
            (λ _. Fails (silent_part self.old role) (silent_part self.new role)) }
        ensures others { (other : Role) → other ≢ role → silent_part self.new other ≡ silent_part self.old other }
        ensures counted { (silent_part self.new role).faults ≡ faults_after (silent_part self.old role).faults result }
        ensures bytes { WriteAppends
            (bytes_taken F.contents S.contents self.old role)
            (bytes_taken F.contents S.contents self.new role) result piece.now }
        ensures touched { TouchesFile role self.old self.new }
    {
        let index = role.index();
        let written = match role {
            Role::Screen => write_to(&mut self.screen, piece),
            _ => write_to_file(&mut self.files[index], piece),
        };
        if written.is_err() {
            self.roles[index].fault();
        }
        written
    }

    fn finish(&mut self, role: Role) -> Result<(), Failed>
        requires { (silent_part self.old role).active ≡ true }
        ensures own { MatchResult result
            (λ _. Finishes (silent_part self.old role) (silent_part self.new role))
            (λ _. Fails (silent_part self.old role) (silent_part self.new role)) }
        ensures others { (other : Role) → other ≢ role → silent_part self.new other ≡ silent_part self.old other }
        ensures counted { (silent_part self.new role).faults ≡ faults_after (silent_part self.old role).faults result }
        ensures files { (other : Role) → other ≢ role → file_of self.new other ≡ file_of self.old other }
        ensures screen { self.new.screen ≡ self.old.screen }
    {
        let index = role.index();
        self.files[index] = None;
        self.roles[index].finish();
        Ok(())
    }
}
